// Whether a message is new, and what is answered where it isn't.
ghost use Rattle.std.specs.Prelude.{◌≡◌, true, false, Ok as Good, List as ListOf, ℕ, option_map, IfNone, IfSome};
ghost use Rattle.dm_machine.specs.Machine.{Machine as AMachine};
ghost use Rattle.dm_machine.specs.Events.{message as came, takes, refusal, session_of as session_number};
ghost use Rattle.dm_machine.specs.Events.{is_same_number};
ghost use Rattle.dm_machine.specs.History.{kept_in};
ghost use Rattle.dm_session.specs.Inside.{session_in};
ghost use Rattle.dm_session.specs.View.{Tells};

use crate::answers::Answer;
use crate::rest::Session;
use dm_base::num;
use syncml_types::Message;

// Whether a message is of the session of a number.
fn is_of(message: &Message, number: u32) -> bool
    ensures { result ≡ is_same_number (session_number message.now) number }
{
    match num(message.header().session.as_slice()) {
        None => false,
        Some(session) => session == u64::from(number),
    }
}

/// What is answered to a message that isn't new to the open session. None comes exactly where it is new.
#[tactic(auto, unfolding(dm_machine::specs::Events::takes, dm_machine::specs::Events::refusal))]
pub(crate) fn answer_to_old(session: &Option<Session>, message: &Message) -> Option<Answer>
    ensures new { IfNone result ((c : AMachine) → (nonce : ListOf ℕ) → c.session ≡ option_map session_in session.now
        → takes c (came (Good message.now) nonce) ≡ true) }
    ensures old { IfSome result
        (λ answer. (c : AMachine) → (nonce : ListOf ℕ) → c.session ≡ option_map session_in session.now
        → (takes c (came (Good message.now) nonce) ≡ false)
        × Tells answer c (refusal c (came (Good message.now) nonce) (kept_in c.session))) }
{
    let session = match session {
        None => return Some(Answer::NoSession),
        Some(session) => session,
    };
    if !is_of(message, session.progress.number) {
        return Some(Answer::Stranger);
    }
    let last = session.progress.standing.last;
    let msg = message.header().msg;
    if last < msg {
        return None;
    }
    if last == msg && last > 0 {
        return Some(Answer::Kept);
    }
    Some(Answer::Stale { last })
}
