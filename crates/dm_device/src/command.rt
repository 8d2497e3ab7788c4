// The command.
ghost use Rattle.std.specs.Prelude.{◌≡◌, ◌<◌, length, IfSome};
ghost use Rattle.dm_base.specs.Outside.{OfKnown};
ghost use Rattle.dm_outside.specs.Calls.{IsIdle};
ghost use Rattle.dm_exit.specs.Causes.{DialerCause, SinkCause, SourceCause};
ghost use Rattle.dm_exit.specs.Puts.{PutsEnd};
ghost use Rattle.dm_exit.specs.declared.exit.Exit.TheVariants as exit;
ghost use Rattle.dm_replay.specs.Events.{account_place as place_in};
ghost use Rattle.dm_replay.specs.From.{CanBegin};
ghost use Rattle.dm_replay.specs.Input.{TakesOnePast};
ghost use Rattle.dm_replay.specs.Trace.{servers_of};
ghost use Rattle.dm_start.specs.Start.{told_of};
ghost use Rattle.dm_device.specs.Devices.{Devices, EndsBehindInput, IsEarly, IsOfDevice, RunsWith, usage_line};
ghost use Rattle.dm_device.specs.Managing.{IsManaged};
ghost use Rattle.dm_device.specs.Outsides.{outside_of, OfTold};

use crate::input::read_setup;
use crate::runs::{Device, run};
use dm_auth::Account;
use dm_base::{List, Sink, Source};
use dm_exit::{Exit, put_text};
use dm_outside::{Dialer, Nonces, Updater};
use dm_replay::endings::put_halt;
use dm_session::Client;
use dm_start::Start;
use dm_words::{DeviceWords, USAGE};
use std::alloc::Global;

// Where a server stands among the accounts.
fn place_of(accounts: &List<Account>, server: &[u8]) -> Option<usize>
    ensures place { result ≡ place_in (servers_of accounts.now) server.now }
    ensures among { IfSome result (λ at. at < length accounts.now) }
{
    for at in 0..accounts.len() {
        if accounts.as_slice()[at].server.as_slice() == server {
            return Some(at);
        }
    }
    None
}

// No account has the server's name.
fn put_usage<K: Sink>(out: &mut K) -> Exit
    ensures bytes { PutsEnd usage_line exit.Usage (K.got out.old) (K.got out.new) result }
    ensures count { SinkCause (K.faults out.old) (K.faults out.new) result }
{
    match put_text(out, USAGE.as_bytes()) {
        Ok(()) => Exit::Usage,
        Err(exit) => exit,
    }
}

// Runs with what the input told.
fn manage<K: Sink, D: Dialer, U: Updater, N: Nonces>(
    alloc: Global,
    words: &DeviceWords,
    start: Start,
    out: &mut K,
    dialer: &mut D,
    updater: &mut U,
    nonces: &mut N,
) -> Exit
    requires idle { IsIdle (D.told dialer.old) }
    requires number { words.now.session < 4294967295 }
    requires client { CanBegin start }
    ensures runs { OfTold (outside_of (D.told dialer.old) (U.told updater.old) (N.left nonces.old))
        (outside_of (D.told dialer.new) (U.told updater.new) (N.left nonces.new))
        (RunsWith words.now (told_of start) (K.got out.old) (K.got out.new) result) }
    ensures untouched { IsEarly result
        → (dialer.new ≡ dialer.old) × (updater.new ≡ updater.old) × (nonces.new ≡ nonces.old) }
    ensures idle { IsIdle (D.told dialer.new) }
    ensures answer { IsManaged result }
    ensures sink { SinkCause (K.faults out.old) (K.faults out.new) result }
    ensures dialer { DialerCause (D.faults dialer.old) (D.faults dialer.new) result }
{
    let Some(account) = place_of(&start.accounts, words.server.as_slice()) else {
        return put_usage(out);
    };
    let version = start.version;
    match Client::new(alloc, start.accounts, start.tree, start.limits) {
        Ok(client) => {
            let mut device = Device {
                client,
                account,
                version,
            };
            run(alloc, words, &mut device, out, dialer, updater, nonces)
        }
        Err(_) => Exit::NoMemory,
    }
}

/// Manages a device: reads a trace without events, opens a session with the account of a server, posts what the client
/// sends to ADDRESS, each message over a connection of its own, and delivers each reply with the next nonce. It puts
/// `session NUMBER WORD` as each session ends, and the tree and `done` behind the last. It answers
/// - `Done` where the last session finished or was aborted,
/// - `GaveUp` where five exchanges in a row were lost, each by a fault that the dialer counted,
/// - `Peer` where five in a row were lost, one of them by what its reply says, or 100,000 messages of a session were
///   accepted and it isn't over,
/// - `Denied` where a session was denied, behind its farewell, which is posted once,
/// - `Usage` where no account has the server's name; the usage line is put then,
/// - `BadInput` at the first line that is refused, which is told,
/// - `TooLong` where no whole line is left in the first 67,108,864 bytes, nor more of the next than a line may have,
///   and another byte comes; nothing is put then,
/// - `ReadFault` after a fault of the source; nothing is put then,
/// - `WriteFault` after a fault of the sink, and `NoMemory` at any place; then what was put is a prefix of the text.
///
/// A session that finished or was aborted and left an update gives its package to the updater once, and one more
/// session, of kind client, tells how that ended. The input is read to its end before anything else is asked. At most
/// 67,108,865 bytes of it are taken.
pub fn device<S: Source, K: Sink, D: Dialer, U: Updater, N: Nonces>(
    alloc: Global,
    words: &DeviceWords,
    src: &mut S,
    out: &mut K,
    dialer: &mut D,
    updater: &mut U,
    nonces: &mut N,
) -> Exit
    requires idle { IsIdle (D.told dialer.old) }
    requires session { (0 < words.now.session) × (words.now.session < 4294967295) }
    ensures output { OfKnown (S.left src.old) (λ bytes. Devices words.now bytes
        (outside_of (D.told dialer.old) (U.told updater.old) (N.left nonces.old))
        (outside_of (D.told dialer.new) (U.told updater.new) (N.left nonces.new))
        (K.got out.old) (K.got out.new) result) }
    ensures untouched { IsEarly result
        → (dialer.new ≡ dialer.old) × (updater.new ≡ updater.old) × (nonces.new ≡ nonces.old) }
    ensures idle { IsIdle (D.told dialer.new) }
    ensures ended { EndsBehindInput (S.left src.old) (S.left src.new) result }
    ensures taken { TakesOnePast (S.left src.old) (S.left src.new) }
    ensures kind { IsOfDevice result }
    ensures faults { SourceCause (S.faults src.old) (S.faults src.new) result
        × SinkCause (K.faults out.old) (K.faults out.new) result
        × DialerCause (D.faults dialer.old) (D.faults dialer.new) result }
{
    match read_setup(alloc, src) {
        Ok(start) => manage(alloc, words, start, out, dialer, updater, nonces),
        Err(halt) => put_halt(alloc, out, halt),
    }
}
