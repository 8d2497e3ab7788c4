// A script: the words of dmtool, what it reads, and what the outside gives it.

use crate::conns::Reply;
use dm_base::{Bytes, List, Memory, Nonce, hex_bytes, nonce};
use dm_fields::{begins_with, two_fields};
use std::alloc::Global;

/// What a script tells.
#[derive(Drop)]
pub struct Script {
    pub words: Vec<String>,
    pub input: Bytes,
    pub replies: List<Option<Reply>>,
    pub nonces: List<Nonce>,
    pub updates: List<Option<bool>>,
}

impl Script {
    fn new(alloc: Global) -> Script {
        Script {
            words: Vec::new(alloc),
            input: Bytes::new(alloc),
            replies: List::new(alloc),
            nonces: List::new(alloc),
            updates: List::new(alloc),
        }
    }
}

// The words behind the first of a line.
fn words_in(alloc: Global, line: &[u8]) -> Result<Option<Vec<String>>, Memory> {
    let mut words = Vec::new(alloc);
    for part in line.split(|byte| *byte == b' ').skip(1) {
        let Ok(text) = str::from_utf8(part) else {
            return Ok(None);
        };
        words.push(String::from_str(alloc, text)?)?;
    }
    Ok(Some(words))
}

// A line `WORD HEX`.
fn read_bytes(
    script: &mut Script,
    alloc: Global,
    word: &[u8],
    digits: &[u8],
) -> Result<bool, Memory> {
    let Some(bytes) = hex_bytes(alloc, digits)? else {
        return Ok(false);
    };
    if word == b"input".as_slice() {
        script.input = bytes;
    } else if word == b"reply".as_slice() || word == b"conn".as_slice() {
        script.replies.push(Some(Reply {
            bytes,
            is_cut: false,
        }))?;
    } else if word == b"cut".as_slice() {
        script.replies.push(Some(Reply {
            bytes,
            is_cut: true,
        }))?;
    } else if word == b"nonce".as_slice() {
        let Some(given) = nonce(digits) else {
            return Ok(false);
        };
        script.nonces.push(given)?;
    } else {
        return Ok(false);
    }
    Ok(true)
}

fn read_update(script: &mut Script, answer: &[u8]) -> Result<bool, Memory> {
    if answer == b"ok".as_slice() {
        script.updates.push(Some(true))?;
    } else if answer == b"fail".as_slice() {
        script.updates.push(Some(false))?;
    } else if answer == b"fault".as_slice() {
        script.updates.push(None)?;
    } else {
        return Ok(false);
    }
    Ok(true)
}

// Whether the line is one of a script.
fn read_line(script: &mut Script, alloc: Global, line: &[u8]) -> Result<bool, Memory> {
    if line.is_empty() {
        return Ok(true);
    }
    if line == b"fault".as_slice() {
        script.replies.push(None)?;
        return Ok(true);
    }
    if begins_with(b"words", line) {
        let Some(words) = words_in(alloc, line)? else {
            return Ok(false);
        };
        script.words = words;
        return Ok(true);
    }
    match two_fields(line) {
        Some((word, answer)) if word == b"update".as_slice() => read_update(script, answer),
        Some((word, digits)) => read_bytes(script, alloc, word, digits),
        None => Ok(false),
    }
}

/// Reads a script. None comes where a line isn't one.
pub fn read_script(alloc: Global, text: &[u8]) -> Result<Option<Script>, Memory> {
    let mut script = Script::new(alloc);
    for line in text.split(|byte| *byte == b'\n') {
        if !read_line(&mut script, alloc, line)? {
            return Ok(None);
        }
    }
    Ok(Some(script))
}
