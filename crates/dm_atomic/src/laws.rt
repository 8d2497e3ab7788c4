// What execution means, over its definition alone.
ghost use Rattle.dm_atomic.specs.Updates.{BegunWithItsUpdate, RunsWhereStarted, BeginsTelling, CommandKeepsTelling};
ghost use Rattle.dm_atomic.specs.Updates.{QuietKeepsTelling, ResultKeepsTelling};
ghost use Rattle.dm_atomic.specs.Laws.{OneStatusEach, NoneLostInQuiet, FailedAtomicRestores, BrokenGroupRestores};
ghost use Rattle.dm_atomic.specs.Laws.{QuietRestores, CommandKeepsOpen, QuietEndsBoth, TasksStartNothing};
ghost use Rattle.dm_atomic.specs.Laws.{JoiningKeepsTheBase, AlertsLeaveAll};
ghost use Rattle.dm_atomic.specs.Laws.{AtomicStartsNothing, FailedTaskLeavesTree, RefusedRightLeavesTree};

/// Law: each step and each container of executed commands has exactly one Status made, suppressed or not: at once, or
/// where its group closes or is broken. What waits in a group that is open still has none yet.
pub fn one_status_each()
    ensures run { OneStatusEach }
    ensures quiet { NoneLostInQuiet }
{}

/// Law: after a failed Atomic the tree before its first part stands again, and so it does after a group that is broken
/// and after a quiet message: it is the base of the group, which a part that joins it leaves, as an Alert does.
pub fn failed_atomic_restores()
    ensures failed { FailedAtomicRestores }
    ensures broken { BrokenGroupRestores }
    ensures quiet { QuietRestores }
    ensures joining { JoiningKeepsTheBase }
    ensures alert { AlertsLeaveAll }
{}

/// Law: a group is open exactly while an object that was begun in an Atomic is being buffered, and neither is left
/// after a quiet message or where a session ends.
pub fn open_while_buffering()
    ensures command { CommandKeepsOpen }
    ensures quiet { QuietEndsBoth }
{}

/// Law: in an Atomic no update is started.
pub fn nothing_starts_in_atomic()
    ensures tasks { TasksStartNothing }
    ensures block { AtomicStartsNothing }
{}

/// Law: a task that is no success leaves the tree as it was, finds nothing and starts nothing; and a whole step whose
/// right is refused is no success.
pub fn failed_task_leaves_the_tree()
    ensures failed { FailedTaskLeavesTree }
    ensures refused { RefusedRightLeavesTree }
{}

/// Law: where an engine begins on a tree whose update part is in order, an update was started exactly where the tree's
/// State is 60.
pub fn begins_with_its_update()
    ensures { BegunWithItsUpdate }
{}

/// Law: after a step an update runs exactly where one ran before, or the step started it.
pub fn runs_where_started()
    ensures { RunsWhereStarted }
{}

/// Law: on a tree whose update part is in order an update was started and has no result yet exactly where State is 60,
/// as an engine begins and whatever it does; and the same holds of the tree before an open group.
pub fn what_was_started_is_told()
    ensures begins { BeginsTelling }
    ensures command { CommandKeepsTelling }
    ensures quiet { QuietKeepsTelling }
    ensures result { ResultKeepsTelling }
{}
