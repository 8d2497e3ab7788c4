// What holds of jobs, over the definitions alone.
ghost use Rattle.dm_job.specs.Laws.{JobsAreRead, JobsAreSound, OnlyJobsAreRead, RefusalsAreFirst, RefusalsAreTold};

/// Law: the text of a job is read as this job.
pub fn jobs_are_read()
    ensures { JobsAreRead }
{}

/// Law: what is read is the text of a job, and of this one.
pub fn only_jobs_are_read()
    ensures { OnlyJobsAreRead }
{}

/// Law: what a refusal tells is the first line that is refused, and its reason.
pub fn refusals_are_first()
    ensures { RefusalsAreFirst }
{}

/// Law: each text that has such a line is refused for it.
pub fn refusals_are_told()
    ensures { RefusalsAreTold }
{}

/// Law: each command of a job that is read can be sent and wants its Status, a container and its members too; no
/// package is empty, and commands are numbered in order.
pub fn jobs_are_sound()
    ensures { JobsAreSound }
{}
