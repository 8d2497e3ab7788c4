//! The tool: it does what the words of its command line ask for, over standard input and output.
#![tactic(auto)]

mod adapters;
mod commands;
mod ends;
mod heap;
mod outside;
mod reach;
mod run;
mod telling;
#[cfg(test)]
mod tests;

use adapters::{StdSink, StdSource};
use dm_base::Memory;
use dm_exit::Exit;
use ends::{ended, given_words};
use heap::keep_heap;
use outside::{RandomNonces, ReadyUpdater, TcpDialer, TcpDoor};
use reach::Reach;
use run::run;
use std::process::ExitCode;
use std::time::Duration;
use std::{env, io};
use telling::{tell, tell_ending};

// Where the system gives no seed for nonces.
const NO_SEED: u8 = 1;

// How long a connection may take in all.
fn connection_time() -> Duration {
    Duration::from_secs(30)
}

// The words behind the program's name.
fn words_of(rt: &HostRuntime) -> io::Result<Vec<String>> {
    let mut words = Vec::new(rt.alloc());
    for word in env::args(rt)?.skip(1) {
        words.push(word)?;
    }
    Ok(words)
}

fn run_all(rt: &HostRuntime, nonces: RandomNonces) -> Exit {
    let words = match given_words(rt.alloc(), words_of(rt)) {
        Ok(words) => words,
        Err(Memory) => return Exit::NoMemory,
    };
    let mut source = StdSource::new(rt.reader());
    let mut sink = StdSink::new(io::writer(rt));
    let mut reach = Reach {
        dialer: TcpDialer::new(rt, connection_time()),
        door: TcpDoor::new(rt, connection_time()),
        updater: ReadyUpdater,
        nonces,
    };
    run(
        rt.alloc(),
        words.as_slice(),
        &mut source,
        &mut sink,
        &mut reach,
    )
}

fn main(rt: HostRuntime) -> ExitCode {
    keep_heap(rt.alloc());
    match RandomNonces::new(&rt) {
        Ok(nonces) => {
            let exit = run_all(&rt, nonces);
            tell_ending(&rt, exit);
            ended(exit)
        }
        Err(_) => {
            tell(&rt, telling::NO_SEED);
            ExitCode::from(NO_SEED)
        }
    }
}
