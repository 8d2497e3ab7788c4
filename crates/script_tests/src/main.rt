//! Runs `device` or `serve` over connections, nonces and updates that a script tells, in place of a network: what each
//! writes and answers, and every byte that each connection got. The script is read from standard input:
//! - `words WORD..`: the words of dmtool,
//! - `input HEX`: what it reads,
//! - `reply HEX` or `conn HEX`: a connection that gives these bytes and then ends,
//! - `cut HEX`: one that gives these bytes, after which a read fails,
//! - `fault`: a dial, or an accept, that fails,
//! - `nonce HEX`, and `update ok`, `update fail` or `update fault`.
//!
//! Behind the script's end dials, accepts and updates fail, and nonces are zeros. What was put is written, then a line
//! `got HEX` for each connection, and for each dial that failed `got -`, then `status NUMBER`.
#![tactic(auto)]

ghost use Rattle.std.specs.Prelude.{◌<◌};

mod conns;
mod doors;
mod outcome;
mod script;

use dm_base::{Bytes, List, MemSink, MemSource, Memory};
use dm_device::device;
use dm_exit::Exit;
use dm_outside::{MemNonces, MemUpdater};
use dm_serving::serve;
use dm_words::{DeviceWords, Form, ServeWords, read_form};
use doors::{ScriptDialer, ScriptDoor};
use outcome::{Outcome, outcome_text};
use script::{Script, read_script};
use std::alloc::Global;
use std::io;
use std::io::{Read, Write};

const PIECE: usize = 65_536;

fn run_device(alloc: Global, words: &DeviceWords, script: Script) -> Result<Outcome, Memory>
    requires { (0 < words.now.session) × (words.now.session < 4294967295) }
{
    let mut source = MemSource::new(script.input, PIECE, List::new(alloc));
    let mut sink = MemSink::new(alloc, List::new(alloc));
    let mut dialer = ScriptDialer::new(alloc, script.replies);
    let mut updater = MemUpdater::new(alloc, script.updates);
    let mut nonces = MemNonces::new(script.nonces);
    let exit = device(
        alloc,
        words,
        &mut source,
        &mut sink,
        &mut dialer,
        &mut updater,
        &mut nonces,
    );
    Ok(Outcome {
        sink,
        got: dialer.into_got()?,
        exit,
    })
}

fn run_serve(alloc: Global, words: &ServeWords, script: Script) -> Result<Outcome, Memory> {
    let mut source = MemSource::new(script.input, PIECE, List::new(alloc));
    let mut sink = MemSink::new(alloc, List::new(alloc));
    let mut door = ScriptDoor::new(alloc, script.replies);
    let mut nonces = MemNonces::new(script.nonces);
    let exit = serve(alloc, words, &mut source, &mut sink, &mut door, &mut nonces);
    Ok(Outcome {
        sink,
        got: door.into_got()?,
        exit,
    })
}

// Does what the words of a script ask for. Words of other forms are of none here.
fn run_script(alloc: Global, script: Script) -> Result<Bytes, Memory> {
    let outcome = match read_form(alloc, script.words.as_slice())? {
        Some(Form::Device(words)) => run_device(alloc, &words, script)?,
        Some(Form::Serve(words)) => run_serve(alloc, &words, script)?,
        _ => Outcome {
            sink: MemSink::new(alloc, List::new(alloc)),
            got: List::new(alloc),
            exit: Exit::Usage,
        },
    };
    outcome_text(alloc, &outcome)
}

fn of_memory(_error: Memory) -> io::Error {
    io::Error::from(io::ErrorKind::OutOfMemory)
}

fn main(rt: HostRuntime) -> io::Result<()> {
    let mut text = Vec::new(rt.alloc());
    rt.reader().read_to_end(&mut text)?;
    let Some(script) = read_script(rt.alloc(), text.as_slice()).map_err(of_memory)? else {
        return Err(io::Error::from(io::ErrorKind::InvalidData));
    };
    let written = run_script(rt.alloc(), script).map_err(of_memory)?;
    io::writer(&rt).write_all(written.as_slice())
}
