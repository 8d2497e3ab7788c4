// Something done again and again, with a look at the clock before and after each turn.
ghost use Rattle.std.specs.Prelude.{◌≡◌, All};
ghost use Rattle.dm_tree.specs.Rows.{IsLive};

use crate::build::build;
use crate::fault::{Fault, told};
use crate::layout::Layout;
use crate::rounds::{count_found, detach_each, ids_of, set_each, walk};
use crate::times::{Span, Times};
use crate::words::{Call, Work};
use dm_tree::{NodeId, Tree};
use dm_uri::Path;
use std::alloc::Global;
use std::io;
use std::time::Instant;

// The time in which a tree is built. Giving it up isn't counted.
fn time_build(rt: &HostRuntime, layout: Layout, order: &[u32]) -> io::Result<u128> {
    let start = Instant::now(rt)?;
    let tree = build(rt.alloc(), layout, order).map_err(told)?;
    let time = start.elapsed(rt)?;
    drop(tree);
    Ok(time.as_nanos())
}

/// Builds a tree again and again.
pub fn measure_build(
    rt: &HostRuntime,
    layout: Layout,
    order: &[u32],
    span: Span,
) -> io::Result<Times> {
    let mut times = Times::none();
    for _ in 0..u64::MAX {
        if times.is_over(span) {
            break;
        }
        times.add(time_build(rt, layout, order)?);
    }
    Ok(times)
}

// Lost where not as many were found as there are, so that no search can be left out.
fn expect(count: usize, wanted: usize) -> Result<(), Fault> {
    if count == wanted {
        Ok(())
    } else {
        Err(Fault::Lost)
    }
}

// Does something once to each leaf, or to each node.
fn turn(
    alloc: Global,
    call: Call,
    tree: &mut Tree,
    paths: &[Path],
    ids: &[NodeId],
) -> Result<(), Fault>
    requires { All (IsLive tree.old.rows) ids.now }
    ensures { tree.new ≡ tree.old }
{
    match call {
        Call::Build => Ok(()),
        Call::Find => expect(count_found(tree, paths), paths.len()),
        Call::Set => set_each(alloc, tree, ids),
        Call::Detach => detach_each(tree, ids),
        Call::Walk => expect(walk(tree), tree.count() as usize),
    }
}

// Does something again and again to each leaf, or to each node.
fn measure_calls(
    rt: &HostRuntime,
    work: Work,
    tree: &mut Tree,
    paths: &[Path],
    ids: &[NodeId],
) -> io::Result<Times>
    requires { All (IsLive tree.old.rows) ids.now }
{
    let mut times = Times::none();
    for _ in 0..u64::MAX {
        if times.is_over(work.span) {
            break;
        }
        let start = Instant::now(rt)?;
        turn(rt.alloc(), work.call, tree, paths, ids).map_err(told)?;
        times.add(start.elapsed(rt)?.as_nanos());
    }
    Ok(times)
}

/// Finds the leaves at these paths, and does something again and again to each, or to each node.
pub fn measure_tree(
    rt: &HostRuntime,
    work: Work,
    tree: &mut Tree,
    paths: &[Path],
) -> io::Result<Times> {
    match ids_of(rt.alloc(), tree, paths) {
        Ok(ids) => measure_calls(rt, work, tree, paths, ids.as_slice()),
        Err(fault) => Err(told(fault)),
    }
}
