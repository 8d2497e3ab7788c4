// A run of each form. Those that read a text and write one reach nothing else, so whatever is outside tells stays.
ghost use Rattle.std.specs.Prelude.{◌≡◌, ◌<◌, ◌≤◌, ℕ, List, Option, Some, None};
ghost use Rattle.dm_exit.specs.Answers.{IsOfText};
ghost use Rattle.dm_exit.specs.Causes.{SourceCause, SinkCause};
ghost use Rattle.dm_outside.specs.Calls.{IsIdle};
ghost use Rattle.dm_outside.specs.Doors.{IsEmpty};
ghost use Rattle.dm_replay.specs.Output.{AnswersTaken};
ghost use Rattle.dm_words.specs.declared.forms.Form.TheVariants as forms;
ghost use Rattle.dm_cli.specs.Forms.{Runs, TakesFor, AsksForMore, ReadsToEnd};
ghost use Rattle.dm_cli.specs.Reaching.{ReachTold, told_of_reach, Reaches, IsAnswerOf, FaultsTell};

use crate::reach::Reach;
use dm_base::{Fault, Sink, Source, put_all};
use dm_bench::bench;
use dm_check::{check, show};
use dm_ddf::{conform, make};
use dm_device::device;
use dm_exit::Exit;
use dm_outside::{Dialer, Door, Nonces, Updater};
use dm_pair::pair;
use dm_replay::replay;
use dm_serving::serve;
use dm_words::{DeviceWords, ServeWords, USAGE};
use std::alloc::Global;

/// Words of no form: writes the usage line.
#[tactic(auto, unfolding(crate::specs::Forms::Runs, crate::specs::Reaching::IsAnswerOf))]
pub fn put_usage<K: Sink>(out: &mut K) -> Exit
    ensures output { (left : Option (List ℕ)) (told : ReachTold)
        → Runs None left told told (K.got out.old) (K.got out.new) result }
    ensures kind { IsAnswerOf None result }
    ensures faults { (faults : ℕ) → FaultsTell faults faults (K.faults out.old) (K.faults out.new) result }
{
    match put_all(out, USAGE.as_bytes()) {
        Ok(()) => Exit::Usage,
        Err(Fault::Failed) => Exit::WriteFault,
        Err(Fault::Memory) => Exit::NoMemory,
    }
}

/// Answers a trace.
#[tactic(auto, unfolding(crate::specs::Forms::Runs, crate::specs::Forms::TakesFor, crate::specs::Forms::AsksForMore, crate::specs::Forms::ReadsToEnd))]
pub fn run_replay<S: Source, K: Sink>(alloc: Global, src: &mut S, out: &mut K) -> Exit
    ensures output { (told : ReachTold) → Runs (Some forms.Replay) (S.left src.old) told told (K.got out.old)
        (K.got out.new) result }
    ensures answered { AnswersTaken (S.left src.old) (S.left src.new) (K.got out.old) (K.got out.new) result }
    ensures asked { AsksForMore (Some forms.Replay) (S.left src.old) (S.left src.new) result }
    ensures ended { ReadsToEnd (Some forms.Replay) (S.left src.old) (S.left src.new) result }
    ensures kind { IsOfText result }
    ensures taken { TakesFor S.left (Some forms.Replay) src.old src.new }
    ensures faults { FaultsTell (S.faults src.old) (S.faults src.new) (K.faults out.old) (K.faults out.new) result }
{
    replay(alloc, src, out)
}

/// Manages a device. The door isn't asked.
#[tactic(auto, unfolding(crate::specs::Forms::Runs, crate::specs::Forms::TakesFor, crate::specs::Forms::AsksForMore, crate::specs::Forms::ReadsToEnd, crate::specs::Reaching::Reaches, crate::specs::Reaching::IsAnswerOf))]
pub fn run_device<
    S: Source,
    K: Sink,
    D: Dialer + Drop,
    P: Door + Drop,
    U: Updater + Drop,
    N: Nonces + Drop,
>(
    alloc: Global,
    words: &DeviceWords,
    src: &mut S,
    out: &mut K,
    reach: &mut Reach<D, P, U, N>,
) -> Exit
    requires idle { IsIdle (D.told reach.old.dialer) }
    requires session { (0 < words.now.session) × (words.now.session < 4294967295) }
    ensures output { Runs (Some (forms.Device words.now)) (S.left src.old)
        (told_of_reach D.told P.told U.told N.left reach.old) (told_of_reach D.told P.told U.told N.left reach.new)
        (K.got out.old) (K.got out.new) result }
    ensures asked { AsksForMore (Some (forms.Device words.now)) (S.left src.old) (S.left src.new) result }
    ensures ended { ReadsToEnd (Some (forms.Device words.now)) (S.left src.old) (S.left src.new) result }
    ensures kind { IsAnswerOf (Some (forms.Device words.now)) result }
    ensures taken { TakesFor S.left (Some (forms.Device words.now)) src.old src.new }
    ensures faults { FaultsTell (S.faults src.old) (S.faults src.new) (K.faults out.old) (K.faults out.new) result }
    ensures reach { Reaches D.faults P.faults (Some (forms.Device words.now)) reach.old reach.new result }
{
    device(
        alloc,
        words,
        src,
        out,
        &mut reach.dialer,
        &mut reach.updater,
        &mut reach.nonces,
    )
}

/// Serves a job. Neither the dialer nor the updater is asked.
#[tactic(auto, unfolding(crate::specs::Forms::Runs, crate::specs::Forms::TakesFor, crate::specs::Forms::AsksForMore, crate::specs::Forms::ReadsToEnd, crate::specs::Reaching::Reaches, crate::specs::Reaching::IsAnswerOf))]
pub fn run_serve<
    S: Source,
    K: Sink,
    D: Dialer + Drop,
    P: Door + Drop,
    U: Updater + Drop,
    N: Nonces + Drop,
>(
    alloc: Global,
    words: &ServeWords,
    src: &mut S,
    out: &mut K,
    reach: &mut Reach<D, P, U, N>,
) -> Exit
    requires empty { IsEmpty (P.told reach.old.door) }
    ensures output { Runs (Some (forms.Serve words.now)) (S.left src.old)
        (told_of_reach D.told P.told U.told N.left reach.old) (told_of_reach D.told P.told U.told N.left reach.new)
        (K.got out.old) (K.got out.new) result }
    ensures asked { AsksForMore (Some (forms.Serve words.now)) (S.left src.old) (S.left src.new) result }
    ensures ended { ReadsToEnd (Some (forms.Serve words.now)) (S.left src.old) (S.left src.new) result }
    ensures kind { IsAnswerOf (Some (forms.Serve words.now)) result }
    ensures taken { TakesFor S.left (Some (forms.Serve words.now)) src.old src.new }
    ensures faults { FaultsTell (S.faults src.old) (S.faults src.new) (K.faults out.old) (K.faults out.new) result }
    ensures reach { Reaches D.faults P.faults (Some (forms.Serve words.now)) reach.old reach.new result }
{
    serve(alloc, words, src, out, &mut reach.door, &mut reach.nonces)
}

/// Runs both ends.
#[tactic(auto, unfolding(crate::specs::Forms::Runs, crate::specs::Forms::TakesFor, crate::specs::Forms::AsksForMore, crate::specs::Forms::ReadsToEnd))]
pub fn run_pair<S: Source, K: Sink>(alloc: Global, src: &mut S, out: &mut K) -> Exit
    ensures output { (told : ReachTold) → Runs (Some forms.Pair) (S.left src.old) told told (K.got out.old)
        (K.got out.new) result }
    ensures asked { AsksForMore (Some forms.Pair) (S.left src.old) (S.left src.new) result }
    ensures ended { ReadsToEnd (Some forms.Pair) (S.left src.old) (S.left src.new) result }
    ensures kind { IsOfText result }
    ensures taken { TakesFor S.left (Some forms.Pair) src.old src.new }
    ensures faults { FaultsTell (S.faults src.old) (S.faults src.new) (K.faults out.old) (K.faults out.new) result }
{
    pair(alloc, src, out)
}

/// Lists a message.
#[tactic(auto, unfolding(crate::specs::Forms::Runs, crate::specs::Forms::TakesFor, crate::specs::Forms::AsksForMore, crate::specs::Forms::ReadsToEnd))]
pub fn run_show<S: Source, K: Sink>(alloc: Global, src: &mut S, out: &mut K) -> Exit
    ensures output { (told : ReachTold) → Runs (Some forms.Show) (S.left src.old) told told (K.got out.old)
        (K.got out.new) result }
    ensures asked { AsksForMore (Some forms.Show) (S.left src.old) (S.left src.new) result }
    ensures ended { ReadsToEnd (Some forms.Show) (S.left src.old) (S.left src.new) result }
    ensures kind { IsOfText result }
    ensures taken { TakesFor S.left (Some forms.Show) src.old src.new }
    ensures faults { FaultsTell (S.faults src.old) (S.faults src.new) (K.faults out.old) (K.faults out.new) result }
{
    show(alloc, src, out)
}

/// Says whether a message is canonical.
#[tactic(auto, unfolding(crate::specs::Forms::Runs, crate::specs::Forms::TakesFor, crate::specs::Forms::AsksForMore, crate::specs::Forms::ReadsToEnd))]
pub fn run_check<S: Source, K: Sink>(alloc: Global, src: &mut S, out: &mut K) -> Exit
    ensures output { (told : ReachTold) → Runs (Some forms.Check) (S.left src.old) told told (K.got out.old)
        (K.got out.new) result }
    ensures asked { AsksForMore (Some forms.Check) (S.left src.old) (S.left src.new) result }
    ensures ended { ReadsToEnd (Some forms.Check) (S.left src.old) (S.left src.new) result }
    ensures kind { IsOfText result }
    ensures taken { TakesFor S.left (Some forms.Check) src.old src.new }
    ensures faults { FaultsTell (S.faults src.old) (S.faults src.new) (K.faults out.old) (K.faults out.new) result }
{
    check(alloc, src, out)
}

/// Runs a workload of 1 to 60,000 leaves and at most 10,000 messages.
#[tactic(auto, unfolding(crate::specs::Forms::Runs, crate::specs::Forms::AsksForMore, crate::specs::Forms::ReadsToEnd))]
pub fn run_bench<K: Sink>(alloc: Global, seed: u64, nodes: u32, messages: u32, out: &mut K) -> Exit
    requires { 0 < nodes }
    ensures output { (left : Option (List ℕ)) (told : ReachTold) → Runs (Some (forms.Bench seed nodes messages)) left
        told told (K.got out.old) (K.got out.new) result }
    ensures asked { (left : Option (List ℕ)) → AsksForMore (Some (forms.Bench seed nodes messages)) left left result }
    ensures ended { (left : Option (List ℕ)) → ReadsToEnd (Some (forms.Bench seed nodes messages)) left left result }
    ensures kind { IsOfText result }
    ensures faults { (faults : ℕ) → FaultsTell faults faults (K.faults out.old) (K.faults out.new) result }
{
    bench(alloc, seed, nodes, messages, out)
}

/// Says whether a tree conforms to a description.
#[tactic(auto, unfolding(crate::specs::Forms::Runs, crate::specs::Forms::TakesFor, crate::specs::Forms::AsksForMore, crate::specs::Forms::ReadsToEnd))]
pub fn run_conform<S: Source, K: Sink>(alloc: Global, src: &mut S, out: &mut K) -> Exit
    ensures output { (told : ReachTold) → Runs (Some forms.Conform) (S.left src.old) told told (K.got out.old)
        (K.got out.new) result }
    ensures asked { AsksForMore (Some forms.Conform) (S.left src.old) (S.left src.new) result }
    ensures ended { ReadsToEnd (Some forms.Conform) (S.left src.old) (S.left src.new) result }
    ensures kind { IsOfText result }
    ensures taken { TakesFor S.left (Some forms.Conform) src.old src.new }
    ensures faults { FaultsTell (S.faults src.old) (S.faults src.new) (K.faults out.old) (K.faults out.new) result }
{
    conform(alloc, src, out)
}

/// Makes the least tree that a description asks for.
#[tactic(auto, unfolding(crate::specs::Forms::Runs, crate::specs::Forms::TakesFor, crate::specs::Forms::AsksForMore, crate::specs::Forms::ReadsToEnd))]
pub fn run_make<S: Source, K: Sink>(alloc: Global, src: &mut S, out: &mut K) -> Exit
    ensures output { (told : ReachTold) → Runs (Some forms.Make) (S.left src.old) told told (K.got out.old)
        (K.got out.new) result }
    ensures asked { AsksForMore (Some forms.Make) (S.left src.old) (S.left src.new) result }
    ensures ended { ReadsToEnd (Some forms.Make) (S.left src.old) (S.left src.new) result }
    ensures kind { IsOfText result }
    ensures taken { TakesFor S.left (Some forms.Make) src.old src.new }
    ensures faults { FaultsTell (S.faults src.old) (S.faults src.new) (K.faults out.old) (K.faults out.new) result }
{
    make(alloc, src, out)
}
