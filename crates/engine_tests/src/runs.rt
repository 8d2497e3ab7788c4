// Each row where memory runs out once, and where its end is gone back on. `rt try --test --fail-alloc N` makes the Nth
// allocation fail.
ghost use Rattle.std.specs.Prelude.{◌≤◌, length};
ghost use Rattle.dm_atomic.specs.Engine.{IsSoundEngine};

use crate::devices::engine_twice;
use crate::engines::{all_called, all_called_twice};
use crate::rows::{ROWS, Row};
use crate::texts::codes;
use dm_atomic::Engine;
use dm_base::{Bytes, List};
use dm_start::tree_text;
use std::alloc::Global;
use std::test::Fail;
use syncml_types::Command;

/// What is told of a row's calls, and the tree text then.
type Shown = (Bytes, Bytes);

fn shown(alloc: Global, engine: &Engine, out: &[Command]) -> Option<Shown> {
    Some((codes(alloc, out)?, tree_text(alloc, engine.tree(), 1).ok()?))
}

fn shown_twice(alloc: Global, engine: &Engine, out: &[Command]) -> Option<Shown> {
    match shown(alloc, engine, out) {
        Some(shown) => Some(shown),
        None => shown(alloc, engine, out),
    }
}

fn run(alloc: Global, row: &Row) -> Option<Shown> {
    let mut engine = engine_twice(alloc)?;
    let mut out = List::new(alloc);
    all_called_twice(alloc, &mut engine, row.0, &mut out).ok()?;
    shown_twice(alloc, &engine, out.as_slice())
}

fn is_told(shown: &Option<Shown>, row: &Row) -> bool {
    match shown {
        Some(shown) => shown.0.as_slice() == row.1,
        None => false,
    }
}

fn are_same(a: &Option<Shown>, b: &Option<Shown>) -> bool {
    match (a, b) {
        (Some(a), Some(b)) => {
            a.0.as_slice() == b.0.as_slice() && a.1.as_slice() == b.1.as_slice()
        }
        _ => false,
    }
}

// The number of the first row that is wrong, or that isn't the same once more: memory runs out in one of the two.
fn wrong_row(alloc: Global) -> Option<usize> {
    for (number, row) in ROWS.iter().enumerate() {
        let first = run(alloc, row);
        if !is_told(&first, row) || !are_same(&first, &run(alloc, row)) {
            return Some(number);
        }
    }
    None
}

#[test]
fn each_row_is_told_though_memory_runs_out_once(rt: HostRuntime) -> Result<(), Fail> {
    assert_eq!(rt; wrong_row(rt.alloc()), None);
    Ok(())
}

// The rest is run, all is given up, and both are gone back on.
fn go_back(alloc: Global, engine: &mut Engine, number: usize, rest: &[&[u8]]) -> Option<()>
    requires sound { IsSoundEngine engine.old }
    ensures sound { IsSoundEngine engine.new }
{
    let mark = engine.mark();
    let mut out = List::new(alloc);
    let answer = all_called(alloc, engine, number, rest, &mut out);
    engine.abandon();
    engine.back(mark);
    answer.ok()
}

// A row whose end was gone back on behind so many calls.
fn run_after(alloc: Global, row: &Row, count: usize) -> Option<Shown>
    requires { count ≤ length row.now.0.now }
{
    let mut engine = engine_twice(alloc)?;
    let mut out = List::new(alloc);
    let number = count.saturating_add(1);
    all_called(alloc, &mut engine, 1, &row.0[..count], &mut out).ok()?;
    go_back(alloc, &mut engine, number, &row.0[count..])?;
    all_called(alloc, &mut engine, number, &row.0[count..], &mut out).ok()?;
    shown(alloc, &engine, out.as_slice())
}

// The first row to which that makes a difference, and behind how many calls.
fn wrong_row_after(alloc: Global) -> Option<(usize, usize)> {
    for (number, row) in ROWS.iter().enumerate() {
        let whole = run(alloc, row);
        for count in 0..row.0.len() {
            if !are_same(&whole, &run_after(alloc, row, count)) {
                return Some((number, count));
            }
        }
    }
    None
}

#[test]
fn each_row_is_told_after_it_was_gone_back_on(rt: HostRuntime) -> Result<(), Fail> {
    assert_eq!(rt; wrong_row_after(rt.alloc()), None);
    Ok(())
}
