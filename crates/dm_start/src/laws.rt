// What holds of start sections, over the definitions alone.
ghost use Rattle.dm_start.specs.Laws.{StartsAreSound};

/// What a whole start section tells is what a client may begin with: 1 to 16 accounts of servers that differ, limits
/// and names of their forms, and a device's tree.
pub fn starts_are_sound()
    ensures { StartsAreSound }
{}
