// Calls of a client with one account.
ghost use Rattle.std.specs.Prelude.{◌≡◌, ◌<◌, length};

use crate::rows::Call;
use dm_base::{Memory, Nonce};
use dm_machine::Initiator;
use dm_session::{Acted, Answer, BeginError, Client};

#[tactic(auto, using(dm_machine::proofs::Accounts::accounts_stay))]
fn begin(client: &mut Client, session: u32) -> Result<(), BeginError>
    requires { 0 < length client.old.machine.accounts }
    ensures { length client.new.machine.accounts ≡ length client.old.machine.accounts }
{
    client.begin(0, Initiator::ByClient, session)?;
    Ok(())
}

#[tactic(auto, using(dm_machine::proofs::Accounts::accounts_stay))]
fn deliver(client: &mut Client, bytes: &[u8], nonce: Nonce) -> Result<Answer, Memory>
    ensures { length client.new.machine.accounts ≡ length client.old.machine.accounts }
{
    let answer = client.deliver(bytes, nonce)?;
    Ok(answer)
}

#[tactic(auto, using(dm_machine::proofs::Accounts::accounts_stay))]
fn act(client: &mut Client, ok: bool) -> Result<Acted, Memory>
    ensures { length client.new.machine.accounts ≡ length client.old.machine.accounts }
{
    let acted = client.acted(ok)?;
    Ok(acted)
}

// Whether a call is answered so.
fn is_answered_once(client: &mut Client, call: Call) -> Result<bool, Memory>
    requires { 0 < length client.old.machine.accounts }
    ensures { length client.new.machine.accounts ≡ length client.old.machine.accounts }
{
    match call {
        Call::Begin(session) => match begin(client, session) {
            Err(BeginError::Memory) => Err(Memory),
            answer => Ok(answer.is_ok()),
        },
        Call::BeginAgain(session) => {
            Ok(begin(client, session) == Err(BeginError::Exhausted { last: session }))
        }
        Call::Deliver(nonce, bytes, wanted) => {
            Ok(deliver(client, bytes, Nonce { bytes: [nonce; 16] })? == wanted)
        }
        Call::Act(ok, wanted) => Ok(act(client, ok)? == wanted),
    }
}

/// Whether a call is answered so, once more where memory runs out.
pub(crate) fn is_answered(client: &mut Client, call: Call) -> Result<bool, Memory>
    requires { 0 < length client.old.machine.accounts }
    ensures { length client.new.machine.accounts ≡ length client.old.machine.accounts }
{
    match is_answered_once(client, call) {
        Err(Memory) => is_answered_once(client, call),
        answer => answer,
    }
}
