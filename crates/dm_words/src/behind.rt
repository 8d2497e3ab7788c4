// What stands behind the first word.
ghost use Rattle.std.specs.Prelude.{◌≡◌, map, string_bytes, IfOk, IfSome};
ghost use Rattle.dm_words.specs.Forms as Spec;
ghost use Rattle.dm_words.specs.Forms.{IsWithinBounds, names_peer, is_path, session_kind_in, number_between};

use crate::forms::{DeviceWords, Form, ServeWords};
use crate::subcommands::{Subcommand, is_plain_word};
use dm_base::{Bytes, FieldForm, Memory, is_field, num};
use dm_machine::Initiator;
use std::alloc::Global;

const MOST_NODES: u64 = 60_000;

const MOST_MESSAGES: u64 = 10_000;

const MOST_CONNECTIONS: u64 = 1_000_000;

// One less than the greatest number, since a second session has the next one.
const LAST_SESSION: u64 = 4_294_967_294;

// A number in decimal digits, without sign and leading zero, from the least to the most.
fn number(word: &str, least: u64, most: u64) -> Option<u64>
    ensures { result ≡ number_between least most word.now }
{
    let number = num(word.as_bytes())?;
    if number >= least && number <= most {
        Some(number)
    } else {
        None
    }
}

fn workload(seed: &str, nodes: &str, messages: &str) -> Option<Form>
    ensures form { result ≡ Spec.workload_of seed.now nodes.now messages.now }
    ensures bounds { IfSome result IsWithinBounds }
{
    let seed = num(seed.as_bytes())?;
    let nodes = number(nodes, 1, MOST_NODES)?;
    let messages = number(messages, 0, MOST_MESSAGES)?;
    Some(Form::Bench {
        seed,
        nodes: nodes as u32,
        messages: messages as u32,
    })
}

// An address, or the name of a server.
fn names_peer_word(word: &str) -> bool
    ensures { result ≡ names_peer word.now }
{
    is_plain_word(word) && is_field(FieldForm::Word, word.as_bytes())
}

fn is_path_word(word: &str) -> bool
    ensures { result ≡ is_path word.now }
{
    match word.as_bytes() {
        [b'/', ..] => is_field(FieldForm::Word, word.as_bytes()),
        _ => false,
    }
}

fn kind_of(word: &str) -> Option<Initiator>
    ensures { result ≡ session_kind_in word.now }
{
    match word {
        "server" => Some(Initiator::ByServer),
        "client" => Some(Initiator::ByClient),
        _ => None,
    }
}

fn device(
    alloc: Global,
    address: &str,
    server: &str,
    kind: &str,
    session: &str,
    path: &str,
) -> Result<Option<Form>, Memory>
    ensures form { IfOk result
        (λ form. form ≡ Spec.device_of address.now server.now kind.now session.now path.now) }
    ensures bounds { IfOk result (λ form. IfSome form IsWithinBounds) }
{
    if !names_peer_word(address) || !names_peer_word(server) || !is_path_word(path) {
        return Ok(None);
    }
    let (Some(kind), Some(session)) = (kind_of(kind), number(session, 1, LAST_SESSION)) else {
        return Ok(None);
    };
    Ok(Some(Form::Device(DeviceWords {
        address: Bytes::of_slice(alloc, address.as_bytes())?,
        server: Bytes::of_slice(alloc, server.as_bytes())?,
        kind,
        session: session as u32,
        path: Bytes::of_slice(alloc, path.as_bytes())?,
    })))
}

fn serve(alloc: Global, address: &str, count: &str) -> Result<Option<Form>, Memory>
    ensures form { IfOk result (λ form. form ≡ Spec.serve_of address.now count.now) }
    ensures bounds { IfOk result (λ form. IfSome form IsWithinBounds) }
{
    if !names_peer_word(address) {
        return Ok(None);
    }
    let Some(count) = number(count, 1, MOST_CONNECTIONS) else {
        return Ok(None);
    };
    Ok(Some(Form::Serve(ServeWords {
        address: Bytes::of_slice(alloc, address.as_bytes())?,
        count: count as u32,
    })))
}

// A form without further words.
fn alone(form: Form, words: &[String]) -> Option<Form>
    ensures { result ≡ Spec.without_words form (map string_bytes words.now) }
{
    if words.is_empty() { Some(form) } else { None }
}

fn two(alloc: Global, words: &[String]) -> Result<Option<Form>, Memory>
    ensures form { IfOk result (λ form. form ≡ Spec.two (map string_bytes words.now)) }
    ensures bounds { IfOk result (λ form. IfSome form IsWithinBounds) }
{
    match words {
        [address, count] => serve(alloc, address.as_str(), count.as_str()),
        _ => Ok(None),
    }
}

fn three(words: &[String]) -> Option<Form>
    ensures form { result ≡ Spec.three (map string_bytes words.now) }
    ensures bounds { IfSome result IsWithinBounds }
{
    match words {
        [seed, nodes, messages] => { workload(seed.as_str(), nodes.as_str(), messages.as_str()) }
        _ => None,
    }
}

fn five(alloc: Global, words: &[String]) -> Result<Option<Form>, Memory>
    ensures form { IfOk result (λ form. form ≡ Spec.five (map string_bytes words.now)) }
    ensures bounds { IfOk result (λ form. IfSome form IsWithinBounds) }
{
    match words {
        [address, server, kind, session, path] => device(
            alloc,
            address.as_str(),
            server.as_str(),
            kind.as_str(),
            session.as_str(),
            path.as_str(),
        ),
        _ => Ok(None),
    }
}

/// The form of a subcommand with the words behind it.
pub fn form_with(
    alloc: Global,
    subcommand: Subcommand,
    words: &[String],
) -> Result<Option<Form>, Memory>
    ensures form { IfOk result (λ form. form ≡ Spec.form_with subcommand (map string_bytes words.now)) }
    ensures bounds { IfOk result (λ form. IfSome form IsWithinBounds) }
{
    match subcommand {
        Subcommand::Replay => Ok(alone(Form::Replay, words)),
        Subcommand::Device => five(alloc, words),
        Subcommand::Serve => two(alloc, words),
        Subcommand::Pair => Ok(alone(Form::Pair, words)),
        Subcommand::Show => Ok(alone(Form::Show, words)),
        Subcommand::Check => Ok(alone(Form::Check, words)),
        Subcommand::Bench => Ok(three(words)),
        Subcommand::Conform => Ok(alone(Form::Conform, words)),
        Subcommand::Make => Ok(alone(Form::Make, words)),
    }
}
