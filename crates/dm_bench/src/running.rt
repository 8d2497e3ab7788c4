// The messages delivered, and what is counted.
ghost use Rattle.std.specs.Prelude.{◌≡◌, ◌<◌, ◌≤◌, ◌+◌, ◌^◌, if◌then◌else◌, IfOk, OnOk};
ghost use Rattle.std.specs.List.{list_any};
ghost use Rattle.dm_machine.specs.Events.{Answer as Answered};
ghost use Rattle.dm_session.specs.View.{Tells};
ghost use Rattle.dm_bench.specs.Running as Spec;
ghost use Rattle.dm_bench.specs.Running.{workload_run};

use crate::messages::message;
use dm_base::{Memory, Nonce};
use dm_session::{Answer, Client};
use rand_core::SeedableRng;
use rand_xoshiro::SplitMix64;
use std::alloc::Global;
use syncml_codec::encode;
use syncml_types::Command;

// Each challenge would tell it.
const NONCE: Nonce = Nonce { bytes: [0; 16] };

/// How many Atomics were answered 200, and how many 507.
#[derive(Clone, Copy, Debug, PartialEq, Eq)]
pub struct AtomicCounts {
    pub ok: u32,
    pub failed: u32,
}

fn tells_atomic(command: &Command, code: u32) -> bool
    ensures { result ≡ Spec.tells_atomic code command.now }
{
    match command {
        Command::Status(status) => {
            status.code == code && status.cmd.as_slice() == b"Atomic".as_slice()
        }
        _ => false,
    }
}

fn any_tells(body: &[Command], code: u32) -> bool
    ensures { result ≡ list_any (Spec.tells_atomic code) body.now }
{
    body.iter().any(|command| tells_atomic(command, code))
}

// Whether the answer is a message that tells this code of an Atomic.
#[tactic(auto, using(crate::proofs::Delivering::other_tells, crate::proofs::Delivering::some_tells, crate::proofs::Delivering::none_tells))]
fn tells(client: &Client, answer: Answer, code: u32) -> bool
    ensures { (a : Answered) → Tells answer client.now.machine a → result ≡ Spec.tells_code code a }
{
    match answer {
        Answer::Sent => match client.sent() {
            Some(message) => any_tells(message.body().as_slice(), code),
            None => false,
        },
        _ => false,
    }
}

fn one_if(told: bool) -> u32
    ensures one { result ≡ (if told then 1 else 0) }
    ensures bound { result ≤ 1 }
{
    if told { 1 } else { 0 }
}

// With the answer to a message more.
fn counted(tally: AtomicCounts, client: &Client, answer: Answer) -> AtomicCounts
    requires ok { tally.ok + 1 < 2 ^ 32 }
    requires failed { tally.failed + 1 < 2 ^ 32 }
    ensures counts { (a : Answered) → Tells answer client.now.machine a → result ≡ Spec.tallied tally a }
    ensures ok { result.ok ≤ tally.ok + 1 }
    ensures failed { result.failed ≤ tally.failed + 1 }
{
    let succeeds = tells(client, answer, 200);
    let fails = tells(client, answer, 507);
    let ok = one_if(succeeds);
    let failed = one_if(fails);
    AtomicCounts {
        ok: tally.ok + ok,
        failed: tally.failed + failed,
    }
}

// Delivers the message of this number.
fn deliver(
    alloc: Global,
    client: &mut Client,
    words: &mut SplitMix64,
    tally: AtomicCounts,
    nodes: u32,
    number: u32,
) -> Result<AtomicCounts, Memory>
    requires some { 0 < nodes }
    requires ok { tally.ok + 1 < 2 ^ 32 }
    requires failed { tally.failed + 1 < 2 ^ 32 }
    ensures run { IfOk result (λ t. workload_run client.new.machine words.new t
        ≡ Spec.with_message nodes number (workload_run client.old.machine words.old tally)) }
    ensures ok { IfOk result (λ t. t.ok ≤ tally.ok + 1) }
    ensures failed { IfOk result (λ t. t.failed ≤ tally.failed + 1) }
{
    let message = message(alloc, nodes, number, words)?;
    let bytes = encode(alloc, &message)?;
    let answer = client.deliver(bytes.as_slice(), NONCE)?;
    Ok(counted(tally, client, answer))
}

/// Delivers so many messages that the seed gives, from number 1 on.
pub fn deliver_all(
    alloc: Global,
    client: &mut Client,
    seed: u64,
    nodes: u32,
    messages: u32,
) -> Result<AtomicCounts, Memory>
    requires { 0 < nodes }
    ensures machine { OnOk result (client.new.machine
        ≡ (Spec.with_messages nodes (Spec.first_run client.old.machine seed) messages).machine) }
    ensures tally { IfOk result (λ t. t
        ≡ (Spec.with_messages nodes (Spec.first_run client.old.machine seed) messages).tally) }
{
    let mut words = SplitMix64::seed_from_u64(seed);
    let mut tally = AtomicCounts { ok: 0, failed: 0 };
    'deliveries: for done in 0..messages {
        tally = deliver(alloc, client, &mut words, tally, nodes, done + 1)?;
    }
    Ok(tally)
}
