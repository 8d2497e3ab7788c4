// A dialer over TCP.
ghost use Rattle.std.specs.Prelude.{◌≡◌, None, IfSome};

use super::conns::TcpConn;
use super::deadlines::Deadline;
use dm_base::Fault;
use dm_outside::Dialer;
use std::net::{Net, OpenStream, TcpStream, ToSocketAddrs};
use std::time::{Clock, Duration};

/// Dials by TCP. A connection has so much time, what the dial takes of it too.
#[derive(Drop)]
pub struct TcpDialer<'a, R: Net + Clock> {
    rt: &'a R,
    time: Duration,
    faults: u64,
}

impl<'a, R: Net + Clock> TcpDialer<'a, R> {
    /// A dialer with no fault so far.
    pub fn new(rt: &'a R, time: Duration) -> TcpDialer<'a, R> {
        TcpDialer {
            rt,
            time,
            faults: 0,
        }
    }

    // A connection to the first place of an address, an IP address or the name of a host with a port, that answers.
    fn connect(&self, address: &[u8]) -> Option<TcpConn<'a, R::Stream, R>>
        ensures takes { IfSome result (λ conn. conn.takes ≡ 0) }
        ensures puts { IfSome result (λ conn. conn.puts ≡ 0) }
    {
        let deadline = Deadline::new(self.rt, self.time);
        let Ok(text) = str::from_utf8(address) else {
            return None;
        };
        let Ok(found) = text.to_socket_addrs(self.rt) else {
            return None;
        };
        for place in found {
            let left = deadline.left()?;
            if let Ok(inner) = TcpStream::connect_timeout(self.rt, &place, left) {
                return Some(TcpConn::new(inner, deadline));
            }
        }
        None
    }
}

impl<'a, R: Net + Clock> Dialer for TcpDialer<'a, R> {
    type Conn = TcpConn<'a, R::Stream, R>;

    ghost told = { λ s. None };

    ghost faults = { λ s. s.faults };

    fn dial(&mut self, address: &[u8]) -> Result<TcpConn<'a, R::Stream, R>, Fault> {
        match self.connect(address) {
            Some(conn) => Ok(conn),
            None => {
                self.faults = self.faults.saturating_add(1);
                Err(Fault::Failed)
            }
        }
    }

    fn close(&mut self, conn: TcpConn<'a, R::Stream, R>) {
        if conn.has_failed() {
            self.faults = self.faults.saturating_add(1);
        }
    }
}
