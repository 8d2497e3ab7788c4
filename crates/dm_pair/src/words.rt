// The words that tell answers.
ghost use Rattle.std.specs.Prelude.{◌≡◌, option_map};
ghost use Rattle.dm_machine.specs.Machine.{Machine};
ghost use Rattle.dm_machine.specs.Events.{Answer as Answered};
ghost use Rattle.dm_service.specs.Service.{Service};
ghost use Rattle.dm_service.specs.Events.{Answer as Served};
ghost use Rattle.dm_session.specs.View.{Tells};
ghost use Rattle.dm_server.specs.View.{Tells as TellsServed};
ghost use Rattle.dm_pair.specs.Pairing as Spec;

use dm_machine::End;
use dm_server::ServerAnswer;
use dm_session::Answer;

fn end_word(end: End) -> &'static [u8]
    ensures { result.now ≡ Spec.end_word end }
{
    match end {
        End::Finished => b"finished",
        End::Aborted => b"aborted",
        End::Denied => b"denied",
    }
}

fn ended_words(end: End) -> &'static [u8]
    ensures { result.now ≡ Spec.ended_words end }
{
    match end {
        End::Finished => b"ended finished",
        End::Aborted => b"ended aborted",
        End::Denied => b"denied",
    }
}

/// What the client answers to a message, without its own message and numbers.
pub(crate) fn client_words(answer: Answer) -> &'static [u8]
    ensures { (c : Machine) (a : Answered) → Tells answer c a → result.now ≡ Spec.client_words a }
{
    match answer {
        Answer::Sent => b"sent",
        Answer::Kept => b"kept",
        Answer::Stale { .. } => b"stale",
        Answer::Stranger => b"stranger",
        Answer::NoSession => b"nosession",
        Answer::Refused(_) => b"refused",
        Answer::Ended(end) => ended_words(end),
    }
}

/// What the server answers to a message, without its own message.
pub(crate) fn server_word(answer: ServerAnswer) -> &'static [u8]
    ensures { (v : Service) (a : Served) → TellsServed answer v a → result.now ≡ Spec.server_word a }
{
    match answer {
        ServerAnswer::Sent => b"sent",
        ServerAnswer::Kept => b"kept",
        ServerAnswer::Stale => b"stale",
        ServerAnswer::Stranger => b"stranger",
        ServerAnswer::Refused(_) => b"refused",
        ServerAnswer::Ended => b"ended",
    }
}

/// Why no round follows one that was answered so. None comes where another does.
pub(crate) fn stop_word(answer: Answer) -> Option<&'static [u8]>
    ensures { (c : Machine) (a : Answered) → Tells answer c a
        → option_map (λ word. word.now) result ≡ Spec.stop_word a }
{
    match answer {
        Answer::Sent => None,
        Answer::Ended(end) => Some(end_word(end)),
        Answer::Kept => Some(b"kept"),
        Answer::Stale { .. } => Some(b"stale"),
        Answer::Stranger => Some(b"stranger"),
        Answer::NoSession => Some(b"nosession"),
        Answer::Refused(_) => Some(b"refused"),
    }
}
