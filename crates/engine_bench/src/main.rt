//! Measures what a step costs in an Atomic that fails and in a group of many parts, beside an edit that a journal
//! notes. Without words it does each once in small, and tells what came. The words WHAT SECONDS ask for nanoseconds.
#![tactic(auto)]

mod atomics;
mod bare;
mod commands;
mod device;
mod edits;
mod fault;
mod groups;
mod leaves;
mod spans;

use atomics::{measure_atomic, show_atomic};
use edits::{What, measure_bare};
use groups::{measure_group, show_group};
use spans::{Span, span_of};
use std::{env, io};

fn bad_words() -> io::Error {
    io::Error::from(io::ErrorKind::InvalidInput)
}

fn measure(rt: &HostRuntime, what: &str, span: Span) -> io::Result<()> {
    match what {
        "find" => measure_bare(rt, What::Find, span),
        "edit" => measure_bare(rt, What::Edit, span),
        "atomic" => measure_atomic(rt, span),
        "group" => measure_group(rt, span),
        _ => Err(bad_words()),
    }
}

fn show(rt: &HostRuntime) -> io::Result<()> {
    show_atomic(rt)?;
    show_group(rt)
}

// Does what the words behind the program's name ask for.
fn run(rt: &HostRuntime, words: &[String]) -> io::Result<()> {
    match words {
        [] => show(rt),
        [what, span] => match span_of(span.as_str()) {
            Some(span) => measure(rt, what.as_str(), span),
            None => Err(bad_words()),
        },
        _ => Err(bad_words()),
    }
}

fn main(rt: HostRuntime) -> io::Result<()> {
    let mut words = Vec::new(rt.alloc());
    for word in env::args(&rt)?.skip(1) {
        words.push(word)?;
    }
    run(&rt, words.as_slice())
}
