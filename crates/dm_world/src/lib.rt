//! Both ends of the protocol on every schedule of openings, deliveries, repeats, losses, clock moves, ends of updates
//! and want of memory, as definitions, and what holds of them.
#![tactic(auto)]

ghost use Rattle.dm_world.specs.Lockstep.{TakesTurns, Understands};
ghost use Rattle.dm_world.specs.Order.{RunsInOrder};
ghost use Rattle.dm_world.specs.Held.{ReadsTheSent};
ghost use Rattle.dm_world.specs.Leaving.{ExecutesAsSaid, QueuesAsSaid};
ghost use Rattle.dm_world.specs.Start.{JobsAreInRange};
ghost use Rattle.dm_world.specs.Commands.{AnswersTheExecuted, ExecutesTheSent, NotesTheSent, SaysTheFound, SaysTheMade};
ghost use Rattle.dm_world.specs.Report.{ReportsTheSaid};
ghost use Rattle.dm_world.specs.Places.{CodesAreGivenByPlace, PlacesAreTheJobs, ValuesAreFoundByPlace};
ghost use Rattle.dm_world.specs.Packing.{ExecutesAll, PacksAll, PutsBack, QueuesReports, SendsOrKeeps};

/// Law: the numbers of every job that is read are in the ranges of their types, so a schedule may begin with it.
pub fn jobs_are_in_range()
    ensures { JobsAreInRange }
{}

/// Law: on every schedule the client takes only the server's newest message, which was sent for the client's newest;
/// the server takes only the newest message of a session; and what no machine takes changes nothing at either end.
pub fn takes_turns()
    ensures { TakesTurns }
{}

/// Law: on every schedule no message that an end ever sent has a fault for the other: no header's code is 400, 505 or
/// 513.
pub fn understands()
    ensures { Understands }
{}

/// Law: on every schedule each message that an end ever sent can be held by the other, and the bytes in which it goes
/// out are read as that very message.
pub fn reads_the_sent()
    ensures { ReadsTheSent }
{}

/// Law: the containers and steps of a message that is filled from a queue, and those of what it leaves there, are, the
/// parts of a cut command joined, those of what waited: none is lost, and none comes twice.
pub fn packs_all()
    ensures { PacksAll }
{}

/// Law: what counts as executed of a message that the client executes are its containers and steps, in document order:
/// what is listed deed by deed, with the numbers that its Status answers, is what the message's commands hold.
pub fn executes_all()
    ensures { ExecutesAll }
{}

/// Law: what an accepted message leaves of the client's tree, of an unfinished object and of an open group is what is
/// said to be executed of it, where its session goes on; where its session ends, the tree is that, or the one before an
/// open group.
pub fn executes_as_said()
    ensures { ExecutesAsSaid }
{}

/// Law: where a session goes on behind an accepted message, the client's next message is packed from a queue that is the
/// header's answer, what waited, and the Statuses and Results that tell what was made, in its order: of what is said to
/// be executed and of nothing else.
pub fn queues_as_said()
    ensures { QueuesAsSaid }
{}

/// Law: the server's reply to a message that it accepts, and what it has still to send then, are, the parts of a cut
/// command joined, what it had to send before, unless the message tells for the first time in its session that the last
/// one was refused.
pub fn sends_or_keeps()
    ensures { SendsOrKeeps }
{}

/// Law: all that ever waits at a server and doesn't count as an entry of its job is a Status or Results.
pub fn queues_reports()
    ensures { QueuesReports }
{}

/// Law: where a message tells for the first time in its session that the server's last one was refused, the reply and
/// what is to be sent then are the whole package that was queued last, and the packages behind it.
pub fn puts_back()
    ensures { PutsBack }
{}

/// Law: what the client has executed of a job is, the parts of a cut command joined, a prefix of what the job asks for,
/// in order and each once. Of at most one command more a part has come, and that is the next one of the job: with more
/// bytes it is what the job asks for next.
pub fn runs_in_order()
    ensures { RunsInOrder }
{}

/// Law: on every schedule each Status that the client sent for a command was made by it, with this code, for what stood
/// under these two numbers in a message of the same session.
pub fn says_the_made()
    ensures { SaysTheMade }
{}

/// Law: on every schedule all Results that the client sent tell of a value that it found in that session, for what
/// stood under these two numbers in a message: its URI, Format and Type, and its bytes or a part of them.
pub fn says_the_found()
    ensures { SaysTheFound }
{}

/// Law: on every schedule each Status that the client made answers something that it executed in the same session, and
/// that stood in a message under the same two numbers.
pub fn answers_the_executed()
    ensures { AnswersTheExecuted }
{}

/// Law: on every schedule what the client executed in a session stands in a message of that session that the server
/// sent.
pub fn executes_the_sent()
    ensures { ExecutesTheSent }
{}

/// Law: on every schedule what the server notes in its present session as sent of the job stands so in its messages:
/// under that MsgID and CmdID the command of that number, or one like it (a step but for its Data, a container but for
/// its members), whole or in part; of a step that is noted to count, the whole or the last part.
pub fn notes_the_sent()
    ensures { NotesTheSent }
{}

/// Law: on every schedule what was executed for a place of the job is what the job has there, or a part of it: a
/// container of the same name, or a step of the same verb, target, Format, Type and Correlator with bytes of its value.
pub fn places_are_the_jobs()
    ensures { PlacesAreTheJobs }
{}

/// Law: on every schedule each code that the server holds at a place is that of a Status which the client made for the
/// last of what it executed for this place of the job, in the session and under the MsgID and CmdID of that: nothing
/// that is executed later is for this place. Of a step that was cut it is the last part. The place of what was executed
/// is told by all that was executed before it.
pub fn codes_are_given_by_place()
    ensures { CodesAreGivenByPlace }
{}

/// Law: on every schedule each value that the server holds at a place is one that the client found for what it executed
/// for this place of the job, in the session and under the MsgID and CmdID of that: with its URI, its Format, its Type
/// and all its bytes.
pub fn values_are_found_by_place()
    ensures { ValuesAreFoundByPlace }
{}

/// Law: on every schedule each code that the server holds for its report is that of a Status in a message which the
/// client sent, and each value ends with the bytes of an Item of Results in such a message, the last of the pieces that
/// it came in.
pub fn reports_the_said()
    ensures { ReportsTheSaid }
{}
