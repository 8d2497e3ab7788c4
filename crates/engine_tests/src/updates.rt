// An update that was started, and its result.
ghost use Rattle.std.specs.Prelude.{◌≤◌, length, IfSome};
ghost use Rattle.dm_base.specs.Limits.{object_limit};
ghost use Rattle.dm_tree.specs.Rows.{nodes};
ghost use Rattle.dm_tree.specs.Devices.{IsUpdateInOrder};
ghost use Rattle.dm_commands.specs.Promises.{IsShortStep};
ghost use Rattle.dm_atomic.specs.Engine.{IsSoundEngine};
ghost use Rattle.dm_atomic.specs.Marks.{Holds};

use crate::devices::{engine_twice, tree};
use crate::engines::all_called_twice;
use crate::rows::UPDATE;
use dm_atomic::Engine;
use dm_base::{Bytes, List};
use dm_commands::act;
use dm_commands::laws::steps_keep_the_device;
use dm_tree::Tree;
use dm_undo::Journal;
use std::alloc::Global;
use std::test::Fail;
use syncml_types::{Step, Verb};

// Whether State is 60, and whether an update was started, with a Correlator.
type Shown = (bool, Option<bool>);

fn shown(engine: &Engine) -> Shown
    requires { IsSoundEngine engine.now }
{
    let started = match engine.started() {
        None => None,
        Some(started) => Some(started.correlator.is_some()),
    };
    (engine.is_updating(), started)
}

fn finish(engine: &mut Engine, ok: bool) -> Option<()>
    requires sound { IsSoundEngine engine.old }
    ensures marks { Holds engine.old engine.new }
    ensures sound { IsSoundEngine engine.new }
{
    if engine.group_open() || !engine.is_updating() {
        return None;
    }
    engine.finish_update(ok).ok()
}

// Gives the update its result, and once more where memory ran out.
fn finish_twice(engine: &mut Engine, ok: bool) -> Option<()>
    requires sound { IsSoundEngine engine.old }
    ensures sound { IsSoundEngine engine.new }
{
    let mark = engine.mark();
    let answer = finish(engine, ok);
    if answer.is_some() {
        return Some(());
    }
    engine.back(mark);
    finish(engine, ok)
}

// How it stands when it is started, and after its result.
fn updated(alloc: Global, ok: bool) -> Option<(Shown, Shown)> {
    let mut engine = engine_twice(alloc)?;
    all_called_twice(alloc, &mut engine, UPDATE.0, &mut List::new(alloc)).ok()?;
    let first = shown(&engine);
    finish_twice(&mut engine, ok)?;
    Some((first, shown(&engine)))
}

#[test]
fn an_update_is_started_and_ends_though_memory_runs_out_once(rt: HostRuntime) -> Result<(), Fail> {
    let alloc = rt.alloc();
    let wanted = ((true, Some(true)), (false, None));
    assert_eq!(rt; updated(alloc, true), Some(wanted));
    assert_eq!(rt; updated(alloc, false), Some(wanted));
    Ok(())
}

fn step(alloc: Global, verb: Verb, uri: &[u8], value: &[u8]) -> Option<Step>
    requires { length value.now ≤ object_limit }
    ensures { IfSome result (λ step. IsShortStep step) }
{
    Some(Step {
        verb,
        target: Some(Bytes::of_slice(alloc, uri).ok()?),
        format: None,
        media: None,
        value: Bytes::of_slice(alloc, value).ok()?,
        correlator: None,
        in_atomic: false,
    })
}

// The code of a step by the server s1.
fn acted(alloc: Global, tree: &mut Tree, journal: &mut Journal, step: &mut Step) -> Option<u32>
    requires update { IsUpdateInOrder (nodes tree.old.rows) }
    requires short { IsShortStep step.old }
    ensures { IfSome result (λ _. IsUpdateInOrder (nodes tree.new.rows)) }
{
    let _ = tree.root();
    steps_keep_the_device();
    match act(alloc, tree, journal, b"s1", step) {
        Ok(outcome) => Some(outcome.code),
        Err(_) => None,
    }
}

// A package is written, and an update is started, by steps without an engine.
fn start(alloc: Global, tree: &mut Tree) -> Option<()>
    requires { IsUpdateInOrder (nodes tree.old.rows) }
    ensures { IfSome result (λ _. IsUpdateInOrder (nodes tree.new.rows)) }
{
    let mut journal = Journal::new(alloc).ok()?;
    let mut package = step(alloc, Verb::Replace, b"./FUMO/Update/PkgData", b"aa")?;
    let mut exec = step(alloc, Verb::Exec, b"./FUMO/Update", b"")?;
    let first = acted(alloc, tree, &mut journal, &mut package)?;
    let second = acted(alloc, tree, &mut journal, &mut exec)?;
    if first == 200 && second == 202 {
        Some(())
    } else {
        None
    }
}

// Where an engine begins with an update that runs: how it stands, and after the result.
fn begun(alloc: Global, ok: bool) -> Option<(Shown, Shown)> {
    let mut tree = tree(alloc)?;
    start(alloc, &mut tree)?;
    let mut engine = Engine::new(alloc, tree, 4_096).ok()?;
    let first = shown(&engine);
    finish(&mut engine, ok)?;
    Some((first, shown(&engine)))
}

#[test]
fn an_engine_begins_with_an_update_that_runs(rt: HostRuntime) -> Result<(), Fail> {
    let alloc = rt.alloc();
    let wanted = ((true, Some(false)), (false, None));
    assert_eq!(rt; begun(alloc, true), Some(wanted));
    assert_eq!(rt; begun(alloc, false), Some(wanted));
    Ok(())
}
