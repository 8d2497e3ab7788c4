// A whole run: its sessions, one behind the other.
ghost use Rattle.std.specs.Prelude.{◌≡◌, ◌<◌, ◌≤◌, ◌+◌, ℕ, length, List, Option, IfErr, OnOk, MatchResult};
ghost use Rattle.dm_machine.specs.Events.{opened};
ghost use Rattle.dm_machine.specs.History.{next};
ghost use Rattle.dm_outside.specs.declared.told.Update.{Update as AnUpdate};
ghost use Rattle.dm_outside.specs.Calls.{IsIdle};
ghost use Rattle.dm_exit.specs.Causes.{SinkCause, DialerCause};
ghost use Rattle.dm_device.specs.Outsides.{outside_of, OfTold};
ghost use Rattle.dm_device.specs.Runs as Spec;
ghost use Rattle.dm_device.specs.Runs.{route_of};
ghost use Rattle.dm_device.specs.Ending.{CloseDoes, ClosesAs, FollowDoes, HoldCounts, HoldDoes, InstallDoes, IsAnswer};
ghost use Rattle.dm_device.specs.Ending.{IsCutShort, PartDoes, RunDoes, TellDoes, ActDoes, unheard as unheard_of};

use crate::exchanging::ReplyHeard;
use crate::lines::{put_last, put_session};
use crate::sessions::{ask, session};
use crate::tally::Word;
use dm_base::{Fault, Memory, Sink};
use dm_exit::Exit;
use dm_machine::Initiator;
use dm_outside::{Dialer, Nonces, Updater};
use dm_session::{BeginError, Client};
use dm_words::DeviceWords;
use std::alloc::Global;

/// A device that talks to one of its servers.
#[derive(Drop)]
pub(crate) struct Device {
    pub(crate) client: Client,
    /// The place of the server's account.
    pub(crate) account: usize,
    /// By which the tree is put.
    pub(crate) version: u8,
}

// The numbers of a run's sessions rise, so that none is exhausted.
#[tactic(auto, using(crate::proofs::Beginning::none_begins))]
fn begin(device: &mut Device, kind: Initiator, number: u32) -> Result<(), Memory>
    requires { device.old.account < length device.old.client.machine.accounts }
    ensures machine { OnOk result (device.new.client.machine
        ≡ next device.old.client.machine (opened device.old.account kind number)) }
    ensures account { device.new.account ≡ device.old.account }
    ensures version { device.new.version ≡ device.old.version }
    ensures accounts { length device.new.client.machine.accounts ≡ length device.old.client.machine.accounts }
{
    match device.client.begin(device.account, kind, number) {
        Ok(()) => Ok(()),
        Err(BeginError::Exhausted { .. }) => Ok(()),
        Err(BeginError::Memory) => Err(Memory),
    }
}

// Holds the session that was begun, and puts how it ended.
fn hold<K: Sink, D: Dialer, N: Nonces>(
    alloc: Global,
    words: &DeviceWords,
    client: &mut Client,
    out: &mut K,
    dialer: &mut D,
    nonces: &mut N,
    number: u32,
) -> Result<Word, Exit>
    requires idle { IsIdle (D.told dialer.old) }
    ensures idle { IsIdle (D.told dialer.new) }
    ensures holds { (us : Option (List AnUpdate)) → OfTold (outside_of (D.told dialer.old) us (N.left nonces.old))
        (outside_of (D.told dialer.new) us (N.left nonces.new)) (HoldDoes words.now.address words.now.path number
        client.old.machine client.new.machine (K.got out.old) (K.got out.new) result) }
    ensures cut { IfErr result IsCutShort }
    ensures accounts { length client.new.machine.accounts ≡ length client.old.machine.accounts }
    ensures sink { MatchResult result (λ _. K.faults out.new ≡ K.faults out.old)
        (λ e. SinkCause (K.faults out.old) (K.faults out.new) e) }
    ensures dialer { HoldCounts (D.faults dialer.old) (D.faults dialer.new) result }
{
    let word = match session(
        alloc,
        client,
        dialer,
        nonces,
        words.address.as_slice(),
        words.path.as_slice(),
    ) {
        Ok(word) => word,
        Err(_) => return Err(Exit::NoMemory),
    };
    match put_session(alloc, out, number, word) {
        Ok(()) => Ok(word),
        Err(exit) => Err(exit),
    }
}

fn leaves_update(client: &Client, word: Word) -> bool
    ensures { result ≡ Spec.leaves_update word client.now.machine }
{
    match word {
        Word::Finished => client.started().is_some(),
        Word::Aborted => client.started().is_some(),
        Word::Denied => false,
        Word::GaveUp => false,
        Word::Peer => false,
    }
}

// Gives the package that was started to the updater. None comes where it failed.
fn install<U: Updater>(client: &Client, updater: &mut U) -> Result<Option<bool>, Memory>
    ensures { OfTold (U.told updater.old) (U.told updater.new) (InstallDoes client.now.machine result) }
{
    match updater.update(client.started().unwrap_or(b"")) {
        Ok(ok) => Ok(Some(ok)),
        Err(Fault::Failed) => Ok(None),
        Err(Fault::Memory) => Err(Memory),
    }
}

fn ended_well(answer: Option<bool>) -> bool
    ensures { result ≡ Spec.ended_well answer }
{
    match answer {
        Some(ok) => ok,
        None => false,
    }
}

// Updates, and tells the client how that ended.
fn update<U: Updater>(client: &mut Client, updater: &mut U) -> Result<(), Memory>
    ensures told { OfTold (U.told updater.old) (U.told updater.new)
        (ActDoes client.old.machine client.new.machine result) }
    ensures accounts { length client.new.machine.accounts ≡ length client.old.machine.accounts }
{
    let answer = match install(client, updater) {
        Ok(answer) => answer,
        Err(memory) => return Err(memory),
    };
    match client.acted(ended_well(answer)) {
        Ok(_) => Ok(()),
        Err(memory) => Err(memory),
    }
}

// Updates, and begins the session that tells the result.
fn tell<U: Updater>(device: &mut Device, updater: &mut U, number: u32) -> Result<(), Memory>
    requires { device.old.account < length device.old.client.machine.accounts }
    ensures told { OfTold (U.told updater.old) (U.told updater.new) (TellDoes device.old.account number
        device.old.client.machine device.new.client.machine result) }
    ensures account { device.new.account ≡ device.old.account }
    ensures version { device.new.version ≡ device.old.version }
    ensures accounts { length device.new.client.machine.accounts ≡ length device.old.client.machine.accounts }
{
    update(&mut device.client, updater)?;
    begin(device, Initiator::ByClient, number)
}

fn exit_of(word: Word) -> Exit
    ensures exit { result ≡ Spec.exit_of_word word }
    ensures answer { IsAnswer result }
{
    match word {
        Word::Finished => Exit::Done,
        Word::Aborted => Exit::Done,
        Word::Denied => Exit::Denied,
        Word::GaveUp => Exit::GaveUp,
        Word::Peer => Exit::Peer,
    }
}

fn unheard(heard: Result<ReplyHeard, Memory>) -> Result<(), Memory>
    ensures { result ≡ unheard_of heard }
{
    match heard {
        Ok(_) => Ok(()),
        Err(memory) => Err(memory),
    }
}

// Posts the farewell of a session that was denied. Its reply isn't looked at.
fn part<D: Dialer>(
    alloc: Global,
    words: &DeviceWords,
    client: &Client,
    dialer: &mut D,
    word: Word,
) -> Result<(), Memory>
    requires idle { IsIdle (D.told dialer.old) }
    ensures idle { IsIdle (D.told dialer.new) }
    ensures parts { OfTold (D.told dialer.old) (D.told dialer.new) (PartDoes words.now.address
        (Spec.farewells words.now.address words.now.path client.now.machine word) result) }
    ensures count { D.faults dialer.old ≤ D.faults dialer.new }
{
    match word {
        Word::Denied => {
            let (address, path) = (words.address.as_slice(), words.path.as_slice());
            unheard(ask(alloc, client, dialer, address, path, client.farewell()))
        }
        Word::Finished => Ok(()),
        Word::Aborted => Ok(()),
        Word::GaveUp => Ok(()),
        Word::Peer => Ok(()),
    }
}

// Ends a run behind its last session.
fn close<K: Sink, D: Dialer>(
    alloc: Global,
    words: &DeviceWords,
    device: &Device,
    out: &mut K,
    dialer: &mut D,
    word: Word,
) -> Exit
    requires idle { IsIdle (D.told dialer.old) }
    ensures idle { IsIdle (D.told dialer.new) }
    ensures closes { (us : Option (List AnUpdate)) (ns : Option (List (List ℕ)))
        → OfTold (outside_of (D.told dialer.old) us ns) (outside_of (D.told dialer.new) us ns)
        (CloseDoes (route_of words.now device.now.version) device.now.client.machine word (K.got out.old)
        (K.got out.new) result) }
    ensures answer { ClosesAs word result }
    ensures sink { SinkCause (K.faults out.old) (K.faults out.new) result }
    ensures dialer { D.faults dialer.old ≤ D.faults dialer.new }
{
    match part(alloc, words, &device.client, dialer, word) {
        Ok(()) => {}
        Err(_) => return Exit::NoMemory,
    }
    match put_last(alloc, out, device.client.tree(), device.version) {
        Ok(()) => exit_of(word),
        Err(exit) => exit,
    }
}

// Updates, and holds the session that tells the result.
fn follow_up<K: Sink, D: Dialer, U: Updater, N: Nonces>(
    alloc: Global,
    words: &DeviceWords,
    device: &mut Device,
    out: &mut K,
    dialer: &mut D,
    updater: &mut U,
    nonces: &mut N,
) -> Exit
    requires idle { IsIdle (D.told dialer.old) }
    requires account { device.old.account < length device.old.client.machine.accounts }
    requires number { words.now.session < 4294967295 }
    ensures idle { IsIdle (D.told dialer.new) }
    ensures follows { OfTold (outside_of (D.told dialer.old) (U.told updater.old) (N.left nonces.old))
        (outside_of (D.told dialer.new) (U.told updater.new) (N.left nonces.new))
        (FollowDoes (route_of words.now device.old.version) device.old.account (words.now.session + 1)
        device.old.client.machine (K.got out.old) (K.got out.new) result) }
    ensures answer { IsAnswer result }
    ensures sink { SinkCause (K.faults out.old) (K.faults out.new) result }
    ensures dialer { DialerCause (D.faults dialer.old) (D.faults dialer.new) result }
{
    let number = words.session + 1;
    match tell(device, updater, number) {
        Ok(()) => {}
        Err(_) => return Exit::NoMemory,
    }
    match hold(
        alloc,
        words,
        &mut device.client,
        out,
        dialer,
        nonces,
        number,
    ) {
        Ok(word) => close(alloc, words, device, out, dialer, word),
        Err(exit) => exit,
    }
}

/// Holds a session, puts its line as it ends, and then: posts a farewell where it was denied; or updates and holds one
/// more session, where it left an update. It puts the tree and `done` behind the last.
pub(crate) fn run<K: Sink, D: Dialer, U: Updater, N: Nonces>(
    alloc: Global,
    words: &DeviceWords,
    device: &mut Device,
    out: &mut K,
    dialer: &mut D,
    updater: &mut U,
    nonces: &mut N,
) -> Exit
    requires idle { IsIdle (D.told dialer.old) }
    requires account { device.old.account < length device.old.client.machine.accounts }
    requires number { words.now.session < 4294967295 }
    ensures idle { IsIdle (D.told dialer.new) }
    ensures runs { OfTold (outside_of (D.told dialer.old) (U.told updater.old) (N.left nonces.old))
        (outside_of (D.told dialer.new) (U.told updater.new) (N.left nonces.new))
        (RunDoes (route_of words.now device.old.version) device.old.account words.now.kind words.now.session
        device.old.client.machine (K.got out.old) (K.got out.new) result) }
    ensures answer { IsAnswer result }
    ensures sink { SinkCause (K.faults out.old) (K.faults out.new) result }
    ensures dialer { DialerCause (D.faults dialer.old) (D.faults dialer.new) result }
{
    match begin(device, words.kind, words.session) {
        Ok(()) => {}
        Err(_) => return Exit::NoMemory,
    }
    let word = match hold(
        alloc,
        words,
        &mut device.client,
        out,
        dialer,
        nonces,
        words.session,
    ) {
        Ok(word) => word,
        Err(exit) => return exit,
    };
    if leaves_update(&device.client, word) {
        follow_up(alloc, words, device, out, dialer, updater, nonces)
    } else {
        close(alloc, words, device, out, dialer, word)
    }
}
