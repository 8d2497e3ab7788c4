// What the step table means, over its definition alone.
ghost use Rattle.dm_commands.specs.Laws.{RefusedRightChangesNothing, OnlyRefusedRightsAreDenied};
ghost use Rattle.dm_commands.specs.Laws.{RefusedStepChangesNothing, StepLeavesOthers, NothingStartsInAtomic};
ghost use Rattle.dm_commands.specs.Laws.{StepKeepsUpdate, StepKeepsDevice};

/// Law: where the right that a verb asks for is refused to the caller on the node that it asks it on, the step is no
/// success and changes nothing; and 425 comes from such a right alone.
pub fn refused_right_changes_nothing()
    ensures nothing { RefusedRightChangesNothing }
    ensures only { OnlyRefusedRightsAreDenied }
{}

/// Law: whatever is no success changes nothing, finds nothing and starts nothing.
pub fn refused_step_changes_nothing()
    ensures { RefusedStepChangesNothing }
{}

/// Law: a step leaves every node but its target and State as it is, and of a Delete and a rename those that are neither
/// below the target nor at or below the new name.
pub fn steps_leave_others()
    ensures { StepLeavesOthers }
{}

/// Law: in an Atomic no step starts the update.
pub fn nothing_starts_in_atomic()
    ensures { NothingStartsInAtomic }
{}

/// Law: a step keeps the update part in order, and a device's tree a device's tree with the same values, if the Type
/// that it gives is a text.
pub fn steps_keep_the_device()
    ensures update { StepKeepsUpdate }
    ensures device { StepKeepsDevice }
{}
