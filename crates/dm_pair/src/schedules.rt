//! What both ends make of a text is what the world makes of a schedule.

ghost use Rattle.dm_pair.specs.Begins.{StartsAndJobsBegin, TextsBegin};
ghost use Rattle.dm_pair.specs.Schedules.{RunsOnSchedules};
ghost use Rattle.dm_pair.specs.Whole.{WholeTextsTellWorlds};

use dm_job::laws::jobs_are_sound;

/// Law: whatever a whole start section and the text of a job tell, they are a client and a job such as schedules begin
/// with.
pub fn starts_and_jobs_begin()
    ensures { StartsAndJobsBegin }
{
    jobs_are_sound();
}

/// Law: from a client and a job such as schedules begin with, whatever lines stand behind the job, taken or refused, a
/// schedule brings the world to the two machines and the messages that they bring both ends to. So the laws over
/// schedules hold of what such lines make of them.
pub fn runs_on_schedules()
    ensures { RunsOnSchedules }
{}

/// Law: whatever the lines of a text are, where they come behind its job, those before its events bring both ends to a
/// client and a job such as schedules begin with, and a schedule from there brings the world to the two machines and
/// the messages that all the lines bring both ends to. So the laws over schedules hold of what any text makes of both
/// ends.
pub fn texts_begin()
    ensures { TextsBegin }
{
    jobs_are_sound();
}

/// Law: where no line of a text is refused, what is written for it ends with the tree of the client, the report of the
/// server and `done` of the world that a schedule makes, from a client and a job such as schedules begin with. So the
/// laws over schedules hold of the report that is written.
pub fn whole_texts_tell_worlds()
    ensures { WholeTextsTellWorlds }
{
    jobs_are_sound();
}
