// The time of a connection.
use std::time::{Clock, Duration, Instant};

/// The moment at which a connection's time is over. Without a clock it is over at once.
#[derive(Drop)]
pub struct Deadline<'a, R: Clock> {
    rt: &'a R,
    until: Option<Instant>,
}

impl<'a, R: Clock> Deadline<'a, R> {
    /// So much time from now on.
    pub fn new(rt: &'a R, time: Duration) -> Deadline<'a, R> {
        let until = match Instant::now(rt) {
            Ok(now) => now.checked_add(time),
            Err(_) => None,
        };
        Deadline { rt, until }
    }

    /// The time that is left. None is left where it is over.
    pub fn left(&self) -> Option<Duration> {
        let until = self.until?;
        let now = match Instant::now(self.rt) {
            Ok(now) => now,
            Err(_) => return None,
        };
        let left = until.checked_duration_since(now)?;
        if left.is_zero() { None } else { Some(left) }
    }
}
