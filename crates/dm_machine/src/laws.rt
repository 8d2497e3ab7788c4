// What holds of the machine, over its definition alone.
ghost use Rattle.dm_machine.specs.Laws.{StateIsEnough, AcceptedNumbersRise, OneStatusEach, ExecutesNothing, EndsGiveUp};
ghost use Rattle.dm_machine.specs.Laws.{AccountsStay, StaysSteady, StaysReady, SendsWithinRoom};
ghost use Rattle.dm_machine.specs.Laws.{DeniedHasAFarewell};
ghost use Rattle.dm_machine.specs.Statuses.{OneStatusEachInRuns, CountsWhatRuns};

/// Law: a client that keeps the message which it sent last answers every list of events as its whole history says.
pub fn state_is_enough()
    ensures { StateIsEnough }
{}

/// Law: of the events that act, each open has a greater session number, and each message of a session a greater MsgID.
/// So no message is executed twice.
pub fn accepted_numbers_rise()
    ensures { AcceptedNumbersRise }
{}

/// Law: no event makes accounts more or fewer.
pub fn accounts_stay()
    ensures { AccountsStay }
{}

/// Law: where the update part is in order, State is 60 exactly while an update was started and has no result yet, and
/// no group is open without a session, so it is after each event.
pub fn machines_stay_steady()
    ensures { StaysSteady }
{}

/// Law: each step and each container of a message that is executed has exactly one Status made, suppressed or not: with
/// that message, or where its group closes or is broken.
pub fn one_status_each()
    ensures { OneStatusEach }
{}

/// Law: over all events that act, each step and each container that is executed has exactly one Status made, in its
/// message or later, unless it still waits for its group's close, or waited for it where its session ended.
pub fn one_status_each_in_runs()
    ensures runs { OneStatusEachInRuns }
    ensures counted { CountsWhatRuns }
{}

/// Law: of a message that doesn't pass the checks of its header nothing is executed, and nothing is made.
pub fn unaccepted_executes_nothing()
    ensures { ExecutesNothing }
{}

/// Law: where a message ends its session, nothing waits then, no object and no group is unfinished, and the tree is
/// that before the group that was open.
pub fn ends_give_up()
    ensures given_up { EndsGiveUp }
    ensures farewell { DeniedHasAFarewell }
{}

/// Law: at each event that a client may meet, a machine that has nothing to send but what can be sent stays one. Its
/// tree stays that of a device, its accounts' names SHORT, and its numbers in their ranges.
pub fn machines_stay_ready()
    ensures { StaysReady }
{}

/// Law: at each event that a client may meet, its next message is no longer than the room that the server told last,
/// which is 16,384 bytes before it told one; and the message with which a session is denied has at most 2,048 bytes,
/// the least room.
pub fn messages_keep_to_the_room()
    ensures { SendsWithinRoom }
{}
