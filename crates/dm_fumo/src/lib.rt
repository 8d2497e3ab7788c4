//! The states of a firmware update: where a write of the package, an Exec and a result lead.
#![tactic(auto)]

ghost use Rattle.std.specs.Prelude.{◌≡◌};
ghost use Rattle.dm_fumo.specs.States.{after_write, may_exec, progressing, after_result, result_code, StatesStay};

/// Nothing to update with.
pub const IDLE: u8 = 10;
/// An update package is there.
pub const READY: u8 = 50;
/// The update runs.
pub const PROGRESSING: u8 = 60;
/// It failed, and the package is still there.
pub const FAILED: u8 = 70;
/// It succeeded, and the package is gone.
pub const SUCCESSFUL: u8 = 100;

/// The state after the package was written, by whether its new value is `empty`. None comes exactly while an update
/// runs: the package isn't written then.
pub fn after_write(state: u8, empty: bool) -> Option<u8>
    ensures { result ≡ after_write state empty }
{
    match state {
        PROGRESSING => None,
        _ if empty => Some(IDLE),
        _ => Some(READY),
    }
}

/// Whether an Exec may start the update: a package is there, and no update runs.
pub fn may_exec(state: u8) -> bool
    ensures { result ≡ may_exec state }
{
    state == READY || state == FAILED
}

/// The state after an Exec that started the update.
pub fn after_exec() -> u8
    ensures { result ≡ progressing }
{
    PROGRESSING
}

/// The state after the update ended, by whether it succeeded.
pub fn after_result(ok: bool) -> u8
    ensures { result ≡ after_result ok }
{
    if ok { SUCCESSFUL } else { FAILED }
}

/// The result code that the server is told: 200 for an update that succeeded, 410 for one that failed.
pub fn result_code(ok: bool) -> u32
    ensures { result ≡ result_code ok }
{
    if ok { 200 } else { 410 }
}

/// Law: every state that is led to is one of the five, and no update is started while one runs.
pub fn states_stay()
    ensures { StatesStay }
{}
