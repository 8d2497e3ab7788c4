// Laws over the definitions of a trace and of its text.
ghost use Rattle.dm_replay.specs.Laws.{WholeTracesAreAnswered, OnlyTracesAreDone};
ghost use Rattle.dm_replay.specs.Refused.{RefusalsAreFirst, RefusalsAreTold};
ghost use Rattle.dm_replay.specs.Room.{StartsAreReady, ReplaysKeepToTheRoom};

/// Law: each whole trace of at most 67,108,864 bytes is answered whole. Its text is the machine's answers to its events
/// by their whole history, the tree that those which act lead to, and `done`.
pub fn whole_traces_are_answered()
    ensures { WholeTracesAreAnswered }
{}

/// Law: a run ends by `Done` over such traces alone.
pub fn only_traces_are_done()
    ensures { OnlyTracesAreDone }
{}

/// Law: where a run stops at a line, that is the first that is refused: those before it are taken, and it, or what
/// stands in its place, is refused for this reason.
pub fn refusals_are_first()
    ensures { RefusalsAreFirst }
{}

/// Law: each first line that is refused stops a run there, for its reason.
pub fn refusals_are_told()
    ensures { RefusalsAreTold }
{}

/// Law: the client that a whole start section tells has nothing to send but what can be sent, and sent nothing.
pub fn starts_are_ready()
    ensures { StartsAreReady }
{}

/// Law: each message that a replay sends, for the first time or again, is no longer than the room that the server of
/// the open session told last, which is 16,384 bytes before it told one; and a farewell has at most 2,048 bytes.
pub fn replays_keep_to_the_room()
    ensures { ReplaysKeepToTheRoom }
{}
