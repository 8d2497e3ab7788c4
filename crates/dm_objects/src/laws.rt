// What gathering comes to, over its definition alone.
ghost use Rattle.dm_objects.specs.Laws.{WholesArePutTogether};

/// Law: a value that comes whole by a piece is the bytes of all pieces of its object, one behind the other. That piece
/// is the last of them, and the others stand right in front of it, as many as there are: each has MoreData and, as the
/// last, the same verb and target, and all are inside an Atomic or all outside. Format and Type are those of the first.
pub fn wholes_are_put_together()
    ensures { WholesArePutTogether }
{}
