// The lines of a text.
ghost use Rattle.std.specs.Prelude.{◌≡◌, ◌≤◌, ◌+◌, ◌++◌, ◌∷◌, true, false, length, MatchResult};
ghost use Rattle.dm_job.specs.Texts.{segments, is_long as is_long_line};
ghost use Rattle.dm_pair.specs.Texts.{TextStage};
ghost use Rattle.dm_pair.specs.From.{rest_written, HaltsAs, text_halt_for as halt_of};

use dm_base::LineReason;
use dm_fields::LineError;
use dm_job::parsing::{cut_line, is_long, tail_reason};

/// Why the reading of a text halts.
#[derive(Clone, Copy, Debug, PartialEq, Eq)]
pub enum TextHalt {
    /// This line is refused.
    Bad { number: u64, reason: LineReason },
    Memory,
}

/// At a line that isn't taken.
pub fn halt_at(number: u64, error: LineError) -> TextHalt
    ensures { result ≡ halt_of number error }
{
    match error {
        LineError::Bad(reason) => TextHalt::Bad { number, reason },
        LineError::Memory => TextHalt::Memory,
    }
}

/// The next line, without its line feed, and what stands behind it.
pub fn next_line(text: &[u8], number: u64) -> Result<(&[u8], &[u8]), TextHalt>
    ensures { MatchResult result
        (λ cut. (segments text.now ≡ cut.0.now ∷ segments cut.1.now) × (is_long_line cut.0.now ≡ false)
        × (text.now ≡ cut.0.now ++ 10 ∷ cut.1.now))
        (λ h. (s : TextStage) → HaltsAs (rest_written number s text.now) h) }
{
    let Some((line, behind)) = cut_line(text) else {
        return Err(TextHalt::Bad {
            number,
            reason: tail_reason(text),
        });
    };
    if is_long(line) {
        return Err(TextHalt::Bad {
            number,
            reason: LineReason::Long,
        });
    }
    Ok((line, behind))
}
