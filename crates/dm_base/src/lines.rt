// A source line by line. What was taken and not yet given as a line is pending.
ghost use Rattle.std.specs.Prelude.{◌≡◌, ◌≢◌, ◌<◌, ◌≤◌, ◌+◌, ◌∷◌, ◌++◌, List, [], ℕ, length, take, drop, slice_index};
ghost use Rattle.std.specs.Prelude.{MatchOption, IfOk, OnOk, OnErr, IsErrOf, true, false};
ghost use Rattle.dm_base.specs.Outside.{ReadCounts};
ghost use Rattle.dm_base.specs.Lines.{LinesState, ReadsLine, StaysUnlessLine, CountsTaken, FillsPending, ahead};
ghost use Rattle.dm_base.specs.Lines.{AskedForMore, LeavesNoLine, HasFeed, IsFeedless, room, bytes_given, run_limit};

use crate::outside::{Failed, Source, TakeError};
use crate::pending_bytes::PendingBytes;
use memchr::memchr;
use std::alloc::Global;
use std::marker::Model;

// Large enough that asking the source costs little beside what is done with its bytes.
const PIECE: usize = 32_768;
/// How many bytes of its input one run looks at. One more may be taken, which tells that the input goes on.
pub const RUN_LIMIT: usize = 67_108_864;
/// How many bytes a line has at most, without its line feed.
pub const LINE_LIMIT: usize = 8_400_000;

/// Why a line is refused.
#[derive(Clone, Copy, Debug, PartialEq, Eq)]
pub enum LineReason {
    /// The input ends inside the line, or before the line that should come.
    Cut,
    /// It has more than 8,400,000 bytes.
    Long,
    /// Its first word isn't allowed there.
    Word,
    /// The number or form of its fields.
    Fields,
    /// An account that repeats, that is unknown, or that is one too many.
    Account,
    /// The tree forbids it.
    Tree,
    /// It stands behind the last line.
    Extra,
    /// A message that wasn't sent.
    Message,
}

/// A line came, or why there is none: `Bad` with `Cut` or `Long`, or the end of the input.
#[derive(Clone, Copy, Debug, PartialEq, Eq)]
pub enum LineOut {
    Line,
    Bad(LineReason),
    End,
}

/// The lines of one source, of which at most 67,108,864 bytes are looked at.
#[derive(Drop)]
pub struct Lines {
    pending: PendingBytes,
    // How many bytes within the limit were taken.
    taken: usize,
    // The byte past the limit, once it came.
    past: Option<u8>,
}

impl Model for Lines {
    ghost use Rattle.std.specs.Prelude.{◌≡◌, ◌≤◌, ◌+◌, length, IsSome, option_to_list};
    ghost use Rattle.dm_base.specs.Lines.{LinesState, run_limit};

    ghost Value = { LinesState };

    ghost view = { λ s. record {
      line = s.pending.line;
      pending = s.pending.bytes;
      past = option_to_list s.past;
      taken = s.taken + length (option_to_list s.past);
    } };

    ghost invariant = { λ s. (s.taken ≤ run_limit) × (IsSome s.past → s.taken ≡ run_limit) };
}

// Where the first line feed stands at or after a place.
fn feed_from(bytes: &[u8], from: usize) -> Option<usize>
    requires { from ≤ length bytes.now }
    ensures { MatchOption result
        ((k : ℕ) → from ≤ k → k < length bytes.now → slice_index bytes.now k ≢ 10)
        (λ at. (from ≤ at) × (at < length bytes.now) × (slice_index bytes.now at ≡ 10)
        × ((k : ℕ) → from ≤ k → k < at → slice_index bytes.now k ≢ 10)) }
{
    match memchr(b'\n', &bytes[from..]) {
        Some(at) => Some(from + at),
        None => None,
    }
}

impl Lines {
    /// The lines of a source of which nothing was taken yet.
    pub fn new(alloc: Global) -> Lines
        ensures { result ≡ record { line = []; pending = []; past = []; taken = 0 } }
    {
        Lines {
            pending: PendingBytes::new(alloc),
            taken: 0,
            past: None,
        }
    }

    /// Whether a line feed is pending, so that `next` gives a line, or refuses it, without asking the source.
    pub fn has_line(&self) -> bool
        ensures some { result ≡ true → HasFeed self.now.pending }
        ensures none { result ≡ false → IsFeedless self.now.pending }
    {
        feed_from(self.pending.as_slice(), 0).is_some()
    }

    // Takes the byte past the limit, where there is one.
    fn pass_limit<S: Source>(&mut self, src: &mut S) -> Result<bool, TakeError>
        requires none { self.old.past ≡ [] }
        requires full { self.old.taken ≡ run_limit }
        ensures bytes { FillsPending self.old self.new (S.left src.old) (S.left src.new) result }
        ensures limit { self.new.taken ≤ run_limit + 1 }
        ensures count { ReadCounts (S.faults src.old) (S.faults src.new) result }
        ensures sink { S.as_sink src.new ≡ S.as_sink src.old }
    {
        let mut byte = [0u8];
        match src.take(&mut byte) {
            Ok(0) => Ok(false),
            Ok(_) => {
                self.past = Some(byte[0]);
                Err(TakeError::TooLong)
            }
            Err(Failed) => Err(TakeError::Read),
        }
    }

    // Takes the next piece. The byte past the limit is asked for alone, and only here.
    fn fill<S: Source>(&mut self, src: &mut S) -> Result<bool, TakeError>
        ensures bytes { FillsPending self.old self.new (S.left src.old) (S.left src.new) result }
        ensures limit { self.new.taken ≤ run_limit + 1 }
        ensures count { ReadCounts (S.faults src.old) (S.faults src.new) result }
        ensures sink { S.as_sink src.new ≡ S.as_sink src.old }
    {
        if self.past.is_some() {
            return Err(TakeError::TooLong);
        }
        if self.taken == RUN_LIMIT {
            return self.pass_limit(src);
        }
        let count = self.pending.fill(src, (RUN_LIMIT - self.taken).min(PIECE))?;
        self.taken += count;
        Ok(count > 0)
    }

    /// The line that `next` gave last, without its line feed, until `next` is called again.
    pub fn line(&self) -> &[u8]
        ensures { result.now ≡ self.now.line }
    {
        self.pending.line()
    }

    /// Whether a line comes next, which `line` gives then. Where a line feed is pending the source isn't asked. A line
    /// that is whole within the first 67,108,864 bytes is given before another byte is asked for, also where the source
    /// fails, and takes no memory. `TooLong` comes exactly where no whole line is left in them, at most 8,400,000 bytes
    /// of the next one stand there, and another byte comes; where there are more of it, it is too long without another
    /// byte. After `Bad`, `End` and `TooLong` the same comes again. After `Read` and `Memory` nothing is lost, and the
    /// source is asked again.
    pub fn next<S: Source>(&mut self, src: &mut S) -> Result<LineOut, TakeError>
        ensures line { ReadsLine (room self.old) (ahead self.old (S.left src.old))
            (ahead self.new (S.left src.new)) self.new.line result }
        ensures pending { HasFeed self.old.pending → src.new ≡ src.old }
        ensures asked { AskedForMore self.old.pending result }
        ensures no_line { LeavesNoLine (self.new.pending ++ self.new.past) result }
        ensures again { StaysUnlessLine (ahead self.old (S.left src.old)) (ahead self.new (S.left src.new))
            (room self.old) (room self.new) result }
        ensures taken { CountsTaken (S.left src.old) (S.left src.new) self.old.taken self.new.taken }
        ensures limit { self.new.taken ≤ run_limit + 1 }
        ensures room { IfOk result (λ out. room self.new + bytes_given self.new.line out ≡ room self.old) }
        ensures count { ReadCounts (S.faults src.old) (S.faults src.new) result }
        ensures sink { S.as_sink src.new ≡ S.as_sink src.old }
    {
        let mut scanned = 0;
        'pieces: loop {
            match feed_from(self.pending.as_slice(), scanned) {
                Some(at) if at > LINE_LIMIT => return Ok(LineOut::Bad(LineReason::Long)),
                Some(at) => {
                    self.pending.give_line(at);
                    return Ok(LineOut::Line);
                }
                None => {}
            }
            scanned = self.pending.len();
            if scanned > LINE_LIMIT {
                return Ok(LineOut::Bad(LineReason::Long));
            }
            match self.fill(src) {
                Ok(true) => {}
                Ok(false) if scanned == 0 => return Ok(LineOut::End),
                Ok(false) => return Ok(LineOut::Bad(LineReason::Cut)),
                Err(error) => return Err(error),
            }
        }
    }
}
