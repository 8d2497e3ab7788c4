// The first word, which is clap's.
ghost use Rattle.std.specs.Prelude.{◌≡◌, ◌≤◌, true, length, map, string_bytes, IfOk};
ghost use Rattle.std.specs.List.{list_all};
ghost use Rattle.dm_words.specs.Forms.{is_plain, subcommand_in, subcommand_of};

use crate::commands::tool_command;
use clap::error::ErrorKind;
use dm_base::Memory;
use std::alloc::Global;

/// The subcommands of the tool.
#[derive(Clone, Copy, Debug, PartialEq, Eq)]
pub enum Subcommand {
    Replay,
    Device,
    Serve,
    Pair,
    Show,
    Check,
    Bench,
    Conform,
    Make,
}

/// Whether a word has a byte and begins with no hyphen, so that clap takes it for no option.
pub fn is_plain_word(word: &str) -> bool
    ensures { result ≡ is_plain word.now }
{
    match word.as_bytes() {
        [first, ..] => *first != b'-',
        [] => false,
    }
}

fn are_plain(words: &[String]) -> bool
    ensures { result ≡ list_all (λ word. is_plain (string_bytes word)) words.now }
{
    words.iter().all(|word| is_plain_word(word.as_str()))
}

// The subcommand with this name.
fn subcommand_named(name: &str) -> Option<Subcommand>
    ensures { result ≡ subcommand_of name.now }
{
    match name {
        "replay" => Some(Subcommand::Replay),
        "device" => Some(Subcommand::Device),
        "serve" => Some(Subcommand::Serve),
        "pair" => Some(Subcommand::Pair),
        "show" => Some(Subcommand::Show),
        "check" => Some(Subcommand::Check),
        "bench" => Some(Subcommand::Bench),
        "conform" => Some(Subcommand::Conform),
        "make" => Some(Subcommand::Make),
        _ => None,
    }
}

// Asks clap.
fn read_plain(alloc: Global, words: &[String]) -> Result<Option<Subcommand>, Memory>
    requires few { length words.now ≤ 1 }
    requires plain { list_all (λ word. is_plain (string_bytes word)) words.now ≡ true }
    ensures { IfOk result (λ found. found ≡ subcommand_in (map string_bytes words.now)) }
{
    let Ok(tool) = tool_command(alloc) else {
        return Err(Memory);
    };
    match tool.try_get_matches_from(words) {
        Ok(matches) => match matches.subcommand() {
            Some((name, _)) => Ok(subcommand_named(name)),
            None => Ok(None),
        },
        Err(error) => match error.kind() {
            ErrorKind::OutOfMemory => Err(Memory),
            _ => Ok(None),
        },
    }
}

/// The subcommand that the word asks for.
pub fn read_subcommand(alloc: Global, words: &[String]) -> Result<Option<Subcommand>, Memory>
    requires { length words.now ≤ 1 }
    ensures { IfOk result (λ found. found ≡ subcommand_in (map string_bytes words.now)) }
{
    if are_plain(words) {
        read_plain(alloc, words)
    } else {
        Ok(None)
    }
}
