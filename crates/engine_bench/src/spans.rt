// How long something is done again and again, and the times that it took.

use std::io;

/// At least so many seconds, or so many turns.
#[derive(Clone, Copy, PartialEq, Eq)]
pub enum Span {
    Seconds(u64),
    Turns(u64),
}

/// The word SECONDS, or xCOUNT for so many turns.
pub fn span_of(word: &str) -> Option<Span> {
    if let Some(count) = word.strip_prefix("x") {
        return count.parse::<u64>().ok().map(Span::Turns);
    }
    word.parse::<u64>().ok().map(Span::Seconds)
}

/// Whether that is enough.
pub fn is_over(span: Span, times: Times) -> bool {
    match span {
        Span::Seconds(seconds) => {
            times.total >= u128::from(seconds).saturating_mul(1_000_000_000)
        }
        Span::Turns(count) => times.turns >= count,
    }
}

/// Times of turns, in nanoseconds: their sum, and the shortest.
#[derive(Clone, Copy)]
pub struct Times {
    pub turns: u64,
    pub total: u128,
    pub least: u128,
}

/// No turn was taken.
pub const NO_TIMES: Times = Times {
    turns: 0,
    total: 0,
    least: u128::MAX,
};

impl Times {
    /// With one more turn.
    pub fn and(self, time: u128) -> Times {
        Times {
            turns: self.turns.saturating_add(1),
            total: self.total.saturating_add(time),
            least: self.least.min(time),
        }
    }

    /// The mean of a step, and that of the fastest turn, where a turn has so many steps.
    pub fn each(self, steps: u64) -> (u128, u128) {
        let steps = u128::from(steps).max(1);
        let turns = u128::from(self.turns).max(1);
        (self.total / turns / steps, self.least / steps)
    }
}

/// Tells the mean of a step and that of the fastest turn, where a turn has so many steps.
pub fn tell(rt: &HostRuntime, name: &str, times: Times, steps: u64) -> io::Result<()> {
    let (mean, least) = times.each(steps);
    println!(rt;
        "{mean} ns a {name}, fastest {least}, {} turns",
        times.turns
    )
}
