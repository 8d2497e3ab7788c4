// What holds of the machine, over its definition alone.
ghost use Rattle.dm_service.specs.Laws.{StateIsEnough, AcceptedNumbersRise, SendsOnce, RunsInOneSession};
ghost use Rattle.dm_service.specs.Laws.{CodesAreTold, AlertsAreTold, UnacceptedTellsNothing, FirstIsReady, StaysReady};
ghost use Rattle.dm_service.specs.Laws.{SendsWithinRoom};
ghost use Rattle.dm_service.specs.Laws.{SendsNoFault, JobKeepsItsSession, ValuesAreFound, ValuesAreRead, SentInOrder};

/// Law: a server that keeps the message which it sent last answers every list of messages as its whole history says.
pub fn state_is_enough()
    ensures { StateIsEnough }
{}

/// Law: of the messages that are taken, each has a greater session number than the one before it, or a greater MsgID in
/// the same session. So none is taken twice.
pub fn accepted_numbers_rise()
    ensures { AcceptedNumbersRise }
{}

/// Law: what was sent in a session is in the order of MsgIDs, and of CmdIDs in a message. So the two numbers name at
/// most one command.
pub fn sent_in_order()
    ensures { SentInOrder }
{}

/// Law: in a session no command of the job goes out twice, whole or by its last part, unless its package was given up
/// in between since the client refused the server's credential.
pub fn sends_once()
    ensures { SendsOnce }
{}

/// Law: where commands of the job were sent in the present session, it is the one in which the job runs.
pub fn runs_in_one_session()
    ensures { RunsInOneSession }
{}

/// Law: a job that runs in a session stays there, unless its package is given up in that same session. So a later
/// session is sent nothing of a job that was begun in an earlier one.
pub fn job_keeps_its_session()
    ensures { JobKeepsItsSession }
{}

/// Law: where a message is accepted, each code that is known then was known before, or is that of a Status in that
/// message for the command, as it was sent in this session, whole or by its last part, and not given up by the same
/// message; and the commands of that message are read.
pub fn codes_are_told()
    ensures { CodesAreTold }
{}

/// Law: where a message is accepted, each value that is known then was known before, or came whole by an Item of
/// Results in that message for the command, as it was sent in this session; and the commands of that message are read.
/// It came so behind the object that the session gathers and all pieces that stand in front in that message.
pub fn values_are_found()
    ensures { ValuesAreFound }
{}

/// Law: each value that is known for a command is what gathering makes of a piece, an Item of Results for that command,
/// behind all pieces that were read before it in the session in which the command was sent. So it is the bytes of that
/// piece behind those of all earlier pieces of the same Source, which have MoreData and stand right in front of it.
pub fn values_are_read()
    ensures { ValuesAreRead }
{}

/// Law: of a message that is read each generic Alert at its top level is kept, in document order and behind those that
/// were kept before; of any other message none is.
pub fn alerts_are_told()
    ensures { AlertsAreTold }
{}

/// Law: a message that doesn't pass the checks of its header tells neither codes nor values nor alerts.
pub fn unaccepted_tells_nothing()
    ensures { UnacceptedTellsNothing }
{}

/// Law: a server of a job that was read has nothing to send but what can be sent.
pub fn first_is_ready()
    ensures { FirstIsReady }
{}

/// Law: whatever comes that a server may meet, a machine that has nothing to send but what can be sent stays one.
pub fn machines_stay_ready()
    ensures { StaysReady }
{}

/// Law: whatever comes that a server may meet, the message that answers it is no longer than the room that the client
/// told last, which is 16,384 bytes before it told one.
pub fn messages_keep_to_the_room()
    ensures { SendsWithinRoom }
{}

/// Law: the checks of a header find no fault in the message that is sent, so they never come to 400, 505 or 513.
pub fn sends_no_fault()
    ensures { SendsNoFault }
{}
