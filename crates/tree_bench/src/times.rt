// How long the turns took.

/// How long something is done again and again: at least so many seconds, or so many turns.
#[derive(Clone, Copy, PartialEq, Eq)]
pub enum Span {
    Seconds(u64),
    Turns(u64),
}

/// The times of the turns so far, in nanoseconds.
#[derive(Clone, Copy, PartialEq, Eq)]
pub struct Times {
    pub turns: u64,
    pub total: u128,
    /// That of the fastest turn, or 0 before the first.
    pub least: u128,
}

impl Times {
    pub fn none() -> Times {
        Times {
            turns: 0,
            total: 0,
            least: 0,
        }
    }

    /// Takes the time of a turn.
    pub fn add(&mut self, nanos: u128) {
        self.least = if self.turns == 0 {
            nanos
        } else {
            self.least.min(nanos)
        };
        self.turns = self.turns.saturating_add(1);
        self.total = self.total.saturating_add(nanos);
    }

    pub fn is_over(&self, span: Span) -> bool {
        match span {
            Span::Seconds(seconds) => self.total
                >= u128::from(seconds).saturating_mul(1_000_000_000),
            Span::Turns(turns) => self.turns >= turns,
        }
    }
}
