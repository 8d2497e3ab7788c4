// The top call.
ghost use Rattle.std.specs.Prelude.{◌≡◌, Option, Some, None, ℕ, List, map, string_bytes};
ghost use Rattle.dm_outside.specs.Calls.{IsIdle};
ghost use Rattle.dm_outside.specs.Doors.{IsEmpty};
ghost use Rattle.dm_replay.specs.Output.{AnswersTaken};
ghost use Rattle.dm_words.specs.declared.forms.Form.TheVariants as forms;
ghost use Rattle.dm_words.specs.Forms.{form_of, IsWithinBounds};
ghost use Rattle.dm_cli.specs.Forms.{Runs, TakesFor, AsksForMore, ReadsToEnd};
ghost use Rattle.dm_cli.specs.Reaching.{told_of_reach, Reaches, IsAnswerOf, FaultsTell};

use crate::commands::{
    put_usage, run_bench, run_check, run_conform, run_device, run_make, run_pair, run_replay,
    run_serve, run_show,
};
use crate::reach::Reach;
use dm_base::{Memory, Sink, Source};
use dm_exit::Exit;
use dm_outside::{Dialer, Door, Nonces, Updater};
use dm_words::{Form, read_form};
use std::alloc::Global;

// Does what a form asks for. A run of each form is in a function of its own, so that no proof here looks into its
// definition.
#[tactic(auto, unfolding(crate::specs::Reaching::Reaches, crate::specs::Reaching::IsAnswerOf))]
fn run_form<
    S: Source,
    K: Sink,
    D: Dialer + Drop,
    P: Door + Drop,
    U: Updater + Drop,
    N: Nonces + Drop,
>(alloc: Global, form: &Form, src: &mut S, out: &mut K, reach: &mut Reach<D, P, U, N>) -> Exit
    requires bounds { IsWithinBounds form.now }
    requires idle { IsIdle (D.told reach.old.dialer) }
    requires empty { IsEmpty (P.told reach.old.door) }
    ensures output { Runs (Some form.now) (S.left src.old) (told_of_reach D.told P.told U.told N.left reach.old)
        (told_of_reach D.told P.told U.told N.left reach.new) (K.got out.old) (K.got out.new) result }
    ensures answered { form.now ≡ forms.Replay
        → AnswersTaken (S.left src.old) (S.left src.new) (K.got out.old) (K.got out.new) result }
    ensures asked { AsksForMore (Some form.now) (S.left src.old) (S.left src.new) result }
    ensures ended { ReadsToEnd (Some form.now) (S.left src.old) (S.left src.new) result }
    ensures kind { IsAnswerOf (Some form.now) result }
    ensures taken { TakesFor S.left (Some form.now) src.old src.new }
    ensures faults { FaultsTell (S.faults src.old) (S.faults src.new) (K.faults out.old) (K.faults out.new) result }
    ensures reach { Reaches D.faults P.faults (Some form.now) reach.old reach.new result }
{
    match form {
        Form::Replay => run_replay(alloc, src, out),
        Form::Device(words) => run_device(alloc, words, src, out, reach),
        Form::Serve(words) => run_serve(alloc, words, src, out, reach),
        Form::Pair => run_pair(alloc, src, out),
        Form::Show => run_show(alloc, src, out),
        Form::Check => run_check(alloc, src, out),
        Form::Bench {
            seed,
            nodes,
            messages,
        } => run_bench(alloc, *seed, *nodes, *messages, out),
        Form::Conform => run_conform(alloc, src, out),
        Form::Make => run_make(alloc, src, out),
    }
}

/// Does all that the tool does: reads the source, writes to the sink, reaches what is outside besides, and answers how
/// the run ended. Want of memory ends it by `NoMemory` at any place; what was written is a prefix of the defined text
/// then. Where the source of a trace fails, the answers to all lines that were taken whole were written. Words of no
/// form and a workload take nothing of the source; where a form reads a text at most 67,108,865 bytes are taken, and
/// one message is taken no further than to the piece that settles its refusal, or to its end. A run that reads a source
/// which tells its bytes ends by `Done` only where that is at its end. `device` asks the dialer, the updater
/// and the nonces, `serve` the door and the nonces, each once its input was read to its end; no other form asks any of
/// them. No connection is out before.
pub fn run<
    S: Source,
    K: Sink,
    D: Dialer + Drop,
    P: Door + Drop,
    U: Updater + Drop,
    N: Nonces + Drop,
>(alloc: Global, words: &[String], src: &mut S, out: &mut K, reach: &mut Reach<D, P, U, N>) -> Exit
    requires idle { IsIdle (D.told reach.old.dialer) }
    requires empty { IsEmpty (P.told reach.old.door) }
    ensures output { Runs (form_of (map string_bytes words.now)) (S.left src.old)
        (told_of_reach D.told P.told U.told N.left reach.old) (told_of_reach D.told P.told U.told N.left reach.new)
        (K.got out.old) (K.got out.new) result }
    ensures answered { form_of (map string_bytes words.now) ≡ Some forms.Replay
        → AnswersTaken (S.left src.old) (S.left src.new) (K.got out.old) (K.got out.new) result }
    ensures asked { AsksForMore (form_of (map string_bytes words.now)) (S.left src.old) (S.left src.new) result }
    ensures ended { ReadsToEnd (form_of (map string_bytes words.now)) (S.left src.old) (S.left src.new) result }
    ensures kind { IsAnswerOf (form_of (map string_bytes words.now)) result }
    ensures taken { TakesFor S.left (form_of (map string_bytes words.now)) src.old src.new }
    ensures faults { FaultsTell (S.faults src.old) (S.faults src.new) (K.faults out.old) (K.faults out.new) result }
    ensures reach { Reaches D.faults P.faults (form_of (map string_bytes words.now)) reach.old reach.new result }
{
    match read_form(alloc, words) {
        Ok(Some(form)) => run_form(alloc, &form, src, out, reach),
        Ok(None) => put_usage(out),
        Err(Memory) => Exit::NoMemory,
    }
}
