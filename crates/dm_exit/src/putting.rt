// What a run puts.
ghost use Rattle.std.specs.Prelude.{◌≡◌, MatchResult};
ghost use Rattle.std.specs.Io.KnownBytes.{Appends};
ghost use Rattle.dm_exit.specs.Causes.{SinkCause};
ghost use Rattle.dm_exit.specs.Puts.{PutsPart};

use crate::exit::Exit;
use dm_base::{Fault, Sink, put_all};

/// Puts a text, or says how the run ends: by `WriteFault` after a fault of the sink, and by `NoMemory`. What the sink
/// is besides stays as it is.
pub fn put_text<K: Sink>(out: &mut K, text: &[u8]) -> Result<(), Exit>
    ensures bytes { MatchResult result (λ _. Appends (K.got out.old) (K.got out.new) text.now)
        (λ e. PutsPart (K.got out.old) (K.got out.new) text.now e) }
    ensures count { MatchResult result (λ _. K.faults out.new ≡ K.faults out.old)
        (λ e. SinkCause (K.faults out.old) (K.faults out.new) e) }
    ensures source { K.as_source out.new ≡ K.as_source out.old }
{
    match put_all(out, text) {
        Ok(()) => Ok(()),
        Err(Fault::Failed) => Err(Exit::WriteFault),
        Err(Fault::Memory) => Err(Exit::NoMemory),
    }
}
