// Whether a message is new, and what is answered where it isn't.
ghost use Rattle.std.specs.Prelude.{◌≡◌, ◌&&◌, ℕ, false, not, nat_lt, List as ListOf, Some, option_map};
ghost use Rattle.syncml_types.specs.Message.{Parts};
ghost use Rattle.dm_service.specs.Service.{Service, Session as ASession};
ghost use Rattle.dm_service.specs.Events as Spec;
ghost use Rattle.dm_server.specs.Inside.{session_in, KeepsReply};
ghost use Rattle.dm_server.specs.View.{Tells};
ghost use Rattle.dm_server.specs.Working.{ComesAs};

use crate::answers::ServerAnswer;
use crate::held::PresentSession;
use dm_base::num;
use dm_service::ServiceProgress;
use syncml_types::Message;

/// What a message is to a server.
#[derive(Clone, Copy, Debug, PartialEq, Eq)]
pub(crate) enum Coming {
    /// The first of a session of this number.
    Begins(u32),
    /// A new one of the present session.
    Follows,
    /// One that isn't taken.
    Old(ServerAnswer),
}

// The number of a message's session.
fn number_of(message: &Message) -> Option<u32>
    ensures { result ≡ Spec.number_of message.now }
{
    match num(message.header().session.as_slice()) {
        Some(number) if number > 0 && number <= u64::from(u32::MAX) => Some(number as u32),
        _ => None,
    }
}

// Whether a message of the present session is new.
fn is_new(progress: &ServiceProgress, msg: u32) -> bool
    ensures { result ≡ (nat_lt progress.now.standing.last msg && not progress.now.is_over) }
{
    progress.standing.last < msg && !progress.is_over
}

// What is answered to a message of the present session that isn't new.
fn answer_again(progress: &ServiceProgress, msg: u32) -> ServerAnswer
    requires { (nat_lt progress.now.standing.last msg && not progress.now.is_over) ≡ false }
    ensures { (v : Service) (s : ASession) (m : Parts) → v.session ≡ Some s → s.progress ≡ progress.now
        → m.header.msg ≡ msg → KeepsReply v
        → Tells result v (Spec.old_message s progress.now.number m (Spec.reply_of v)) }
{
    let last = progress.standing.last;
    if msg < last {
        ServerAnswer::Stale
    } else if msg == last && progress.answered {
        ServerAnswer::Kept
    } else {
        ServerAnswer::Ended
    }
}

// What a message of a numbered session is where one was begun.
fn coming_to(progress: &ServiceProgress, number: u32, msg: u32) -> Coming
    ensures { (v : Service) (s : ASession) (m : Parts) (nonce : ListOf ℕ) → v.session ≡ Some s
        → s.progress ≡ progress.now → Spec.number_of m ≡ Some number → m.header.msg ≡ msg
        → ComesAs result v m nonce }
{
    if progress.number < number {
        return Coming::Begins(number);
    }
    if number < progress.number {
        return Coming::Old(ServerAnswer::Stale);
    }
    if is_new(progress, msg) {
        return Coming::Follows;
    }
    Coming::Old(answer_again(progress, msg))
}

/// What a message is to a server with this session.
pub(crate) fn what_comes(session: &Option<PresentSession>, message: &Message) -> Coming
    ensures { (v : Service) (nonce : ListOf ℕ) → v.session ≡ option_map session_in session.now
        → ComesAs result v message.now nonce }
{
    let Some(number) = number_of(message) else {
        return Coming::Old(ServerAnswer::Stranger);
    };
    match session {
        None => Coming::Begins(number),
        Some(session) => coming_to(&session.progress, number, message.header().msg),
    }
}
