// The summary of a workload.
ghost use Rattle.std.specs.Prelude.{◌≡◌, ◌<◌, IfOk};
ghost use Rattle.md5.specs.Md5.{md5};
ghost use Rattle.dm_tree.specs.Rows.{nodes as nodes_of};
ghost use Rattle.dm_start.specs.TreeText.{tree_text as text_of};
ghost use Rattle.dm_exit.specs.Answers.{IsOfText};
ghost use Rattle.dm_exit.specs.Causes.{SinkCause};
ghost use Rattle.dm_exit.specs.Puts.{PutsEnd};
ghost use Rattle.dm_bench.specs.Running.{first_run as begun_run, with_messages};
ghost use Rattle.dm_bench.specs.Workload as Spec;
ghost use Rattle.dm_bench.specs.Workload.{bench_text, run_text};

use crate::hashing::Hashing;
use crate::running::{AtomicCounts, deliver_all};
use crate::starting::begun;
use dm_base::{Bytes, Memory, Sink, hex_into};
use dm_decimals::put_decimal;
use dm_exit::{Exit, put_text};
use dm_session::Client;
use dm_start::put_tree;
use dm_tree::Tree;
use std::alloc::Global;

// The digest of the tree text, which is put in pieces and isn't kept.
fn digest_of(alloc: Global, tree: &Tree) -> Result<[u8; 16], Memory>
    ensures { IfOk result (λ digest. digest ≡ md5 (text_of 1 (nodes_of tree.now.rows))) }
{
    let mut out = Hashing::new();
    match put_tree(alloc, &mut out, tree, 1) {
        Ok(()) => Ok(out.digest()),
        Err(_) => Err(Memory),
    }
}

fn summary(
    alloc: Global,
    messages: u32,
    tally: AtomicCounts,
    digest: &[u8],
) -> Result<Bytes, Memory>
    ensures { IfOk result (λ line. line ≡ Spec.summary messages tally digest.now) }
{
    let mut line = Bytes::of_slice(alloc, b"bench ")?;
    put_decimal(&mut line, messages as u64)?;
    line.extend(b" ok ")?;
    put_decimal(&mut line, tally.ok as u64)?;
    line.extend(b" failed ")?;
    put_decimal(&mut line, tally.failed as u64)?;
    line.extend(b" tree ")?;
    hex_into(&mut line, digest)?;
    line.push(b'\n')?;
    Ok(line)
}

// Runs the messages of a workload, and tells what they came to.
fn run(
    alloc: Global,
    client: &mut Client,
    seed: u64,
    nodes: u32,
    messages: u32,
) -> Result<Bytes, Memory>
    requires { 0 < nodes }
    ensures { IfOk result (λ line. line
        ≡ run_text messages (with_messages nodes (begun_run client.old.machine seed) messages)) }
{
    let tally = deliver_all(alloc, client, seed, nodes, messages)?;
    let digest = digest_of(alloc, client.tree())?;
    let line = summary(alloc, messages, tally, &digest)?;
    Ok(line)
}

fn bench_line(alloc: Global, seed: u64, nodes: u32, messages: u32) -> Result<Bytes, Memory>
    requires { 0 < nodes }
    ensures { IfOk result (λ line. line ≡ bench_text seed nodes messages) }
{
    match begun(alloc, nodes) {
        Ok(mut client) => run(alloc, &mut client, seed, nodes, messages),
        Err(memory) => Err(memory),
    }
}

/// Makes a tree of so many leaves, delivers so many messages that the seed gives to a client with it, and puts one
/// line: how many of their Atomics were answered 200 and how many 507, and the MD5 digest of the tree text in the end.
/// It answers
/// - `Done` where the line was put,
/// - `WriteFault` after a fault of the sink, and `NoMemory` at any place; then a prefix of the line was put.
///
/// A message costs what it holds, however large the tree is.
pub fn bench<K: Sink>(alloc: Global, seed: u64, nodes: u32, messages: u32, out: &mut K) -> Exit
    requires { 0 < nodes }
    ensures output { PutsEnd (bench_text seed nodes messages) Exit.Done (K.got out.old) (K.got out.new) result }
    ensures kind { IsOfText result }
    ensures sink { SinkCause (K.faults out.old) (K.faults out.new) result }
{
    match bench_line(alloc, seed, nodes, messages) {
        Ok(line) => match put_text(out, line.as_slice()) {
            Ok(()) => Exit::Done,
            Err(exit) => exit,
        },
        Err(_) => Exit::NoMemory,
    }
}
