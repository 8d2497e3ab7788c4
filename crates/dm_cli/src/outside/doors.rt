// A door over TCP.
ghost use Rattle.std.specs.Prelude.{None};

use super::conns::TcpConn;
use super::deadlines::Deadline;
use dm_base::Fault;
use dm_outside::Door;
use std::net::{Net, OpenListener, SocketAddr, TcpListener};
use std::time::{Clock, Duration};

/// Listens by TCP, and gives each connection so much time from the moment that it is let in.
#[derive(Drop)]
pub struct TcpDoor<'a, R: Net + Clock> {
    rt: &'a R,
    time: Duration,
    listener: Option<R::Listener>,
    faults: u64,
}

impl<'a, R: Net + Clock> TcpDoor<'a, R> {
    /// A door that doesn't listen yet, with no fault so far.
    pub fn new(rt: &'a R, time: Duration) -> TcpDoor<'a, R> {
        TcpDoor {
            rt,
            time,
            listener: None,
            faults: 0,
        }
    }

    /// Where it listens, for tests that let the system choose the port.
    #[cfg(test)]
    pub fn place(&self) -> Option<SocketAddr> {
        self.listener.as_ref()?.local_addr().ok()
    }

    fn bind(&self, address: &[u8]) -> Option<R::Listener> {
        match str::from_utf8(address) {
            Ok(text) => TcpListener::bind(self.rt, text).ok(),
            Err(_) => None,
        }
    }

    fn let_in(&self) -> Option<R::Stream> {
        match self.listener.as_ref()?.accept() {
            Ok((inner, _)) => Some(inner),
            Err(_) => None,
        }
    }
}

impl<'a, R: Net + Clock> Door for TcpDoor<'a, R> {
    type Conn = TcpConn<'a, R::Stream, R>;

    ghost told = { λ s. None };

    ghost faults = { λ s. s.faults };

    fn listen(&mut self, address: &[u8]) -> Result<(), Fault> {
        match self.bind(address) {
            Some(listener) => {
                self.listener = Some(listener);
                Ok(())
            }
            None => {
                self.faults = self.faults.saturating_add(1);
                Err(Fault::Failed)
            }
        }
    }

    fn accept(&mut self) -> Result<TcpConn<'a, R::Stream, R>, Fault> {
        match self.let_in() {
            Some(inner) => Ok(TcpConn::new(inner, Deadline::new(self.rt, self.time))),
            None => {
                self.faults = self.faults.saturating_add(1);
                Err(Fault::Failed)
            }
        }
    }

    fn close(&mut self, conn: TcpConn<'a, R::Stream, R>) {
        let mut conn = conn;
        conn.hang_up();
    }
}
