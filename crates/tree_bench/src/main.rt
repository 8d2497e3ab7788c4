//! Measures how fast the management tree is built, searched, edited and gone through. Without words it does each once
//! on small trees, and tells what came. The words CALL SECONDS SHAPE ORDER, and LEAVES behind them, ask for picoseconds
//! a call.
#![tactic(auto)]

mod build;
mod fault;
mod layout;
mod measure;
mod nodes;
mod rounds;
mod times;
mod words;

use build::{build, leaf_paths};
use fault::told;
use layout::{Layout, build_order, shuffled_order};
use measure::{measure_build, measure_tree};
use rounds::{count_found, edit_each, fold_names, walk};
use std::{env, io};
use times::{Span, Times};
use words::{Call, Work, work_of};

// How many leaves each tree of the stored run has: two groups of 256, and a part of a third.
const FEW: u32 = 600;

fn bad_words() -> io::Error {
    io::Error::from(io::ErrorKind::InvalidInput)
}

// Tells the mean time and that of the fastest turn.
fn tell(rt: &HostRuntime, times: Times, calls: u64, unit: &str) -> io::Result<()> {
    let calls = u128::from(calls).max(1);
    let all = calls.saturating_mul(u128::from(times.turns)).max(1);
    let mean = times.total.saturating_mul(1000) / all;
    let best = times.least.saturating_mul(1000) / calls;
    println!(rt; "{mean} ps a {unit}, fastest {best}, {} turns", times.turns)
}

// What one of the things is that a turn does.
fn unit_of(call: Call) -> &'static str {
    match call {
        Call::Build => "leaf",
        Call::Find => "find",
        Call::Set => "set",
        Call::Detach => "detach",
        Call::Walk => "node",
    }
}

// Builds a tree again and again.
fn work_on_building(rt: &HostRuntime, work: Work) -> io::Result<()> {
    let order = build_order(rt.alloc(), work.layout).map_err(told)?;
    let times = measure_build(rt, work.layout, order.as_slice(), work.span)?;
    tell(rt, times, u64::from(work.layout.leaves), unit_of(work.call))
}

// Builds a tree once, and calls it again and again.
fn work_on_tree(rt: &HostRuntime, work: Work) -> io::Result<()> {
    let alloc = rt.alloc();
    let order = build_order(alloc, work.layout).map_err(told)?;
    let mut tree = build(alloc, work.layout, order.as_slice()).map_err(told)?;
    let picks = shuffled_order(alloc, work.layout.leaves).map_err(told)?;
    let paths = leaf_paths(alloc, work.layout, picks.as_slice()).map_err(told)?;
    let times = measure_tree(rt, work, &mut tree, paths.as_slice())?;
    let calls = match work.call {
        Call::Walk => tree.count(),
        _ => work.layout.leaves,
    };
    tell(rt, times, u64::from(calls), unit_of(work.call))
}

fn work(rt: &HostRuntime, work: Work) -> io::Result<()> {
    match work.call {
        Call::Build => work_on_building(rt, work),
        _ => work_on_tree(rt, work),
    }
}

// Each call once, on a small tree.
fn show(rt: &HostRuntime, name: &str, layout: Layout) -> io::Result<()> {
    let alloc = rt.alloc();
    let order = build_order(alloc, layout).map_err(told)?;
    let mut tree = build(alloc, layout, order.as_slice()).map_err(told)?;
    let picks = shuffled_order(alloc, layout.leaves).map_err(told)?;
    let paths = leaf_paths(alloc, layout, picks.as_slice()).map_err(told)?;
    edit_each(alloc, &mut tree, paths.as_slice()).map_err(told)?;
    let found = count_found(&tree, paths.as_slice());
    println!(rt;
        "{name} {} nodes, {found} found, {} walked, sum {}",
        tree.count(),
        walk(&tree),
        fold_names(&tree)
    )
}

fn show_all(rt: &HostRuntime) -> io::Result<()> {
    let few = |flat: bool, shuffled: bool| Layout {
        leaves: FEW,
        flat,
        shuffled,
    };
    show(rt, "groups ordered", few(false, false))?;
    show(rt, "groups shuffled", few(false, true))?;
    show(rt, "flat ordered", few(true, false))?;
    show(rt, "flat shuffled", few(true, true))
}

// Does what the words behind the program's name ask for.
fn run(rt: &HostRuntime, words: &[String]) -> io::Result<()> {
    let asked = match words {
        [] => return show_all(rt),
        [call, span, shape, order] => work_of(
            call.as_str(),
            span.as_str(),
            shape.as_str(),
            order.as_str(),
            "60000",
        ),
        [call, span, shape, order, leaves] => work_of(
            call.as_str(),
            span.as_str(),
            shape.as_str(),
            order.as_str(),
            leaves.as_str(),
        ),
        _ => None,
    };
    match asked {
        Some(asked) => work(rt, asked),
        None => Err(bad_words()),
    }
}

fn main(rt: HostRuntime) -> io::Result<()> {
    let mut words = Vec::new(rt.alloc());
    for word in env::args(&rt)?.skip(1) {
        words.push(word)?;
    }
    run(&rt, words.as_slice())
}
