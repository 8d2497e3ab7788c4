// What comes, and what becomes of it.
use dm_base::Bytes;
use syncml_types::Step;

/// One piece of an object, as a step: the Size in bytes that it tells, and whether more pieces follow (MoreData).
#[derive(Drop)]
pub struct Piece {
    pub step: Step,
    pub size: Option<u64>,
    pub more: bool,
}

/// What a piece comes to: a whole step to be run, one that is buffered (code 213), or one that is refused with a code.
#[derive(Drop)]
pub enum What {
    Whole(Step),
    Buffered,
    Refused(u32),
}

/// A piece was taken: the target of the object that it broke, where one was being buffered, and what it comes to.
#[derive(Drop)]
pub struct Taken {
    pub broken: Option<Bytes>,
    pub what: What,
}

/// What a piece comes to that was taken over: a whole step, which then stands in the piece itself, one that is buffered
/// (code 213), or one that is refused with a code.
#[derive(Clone, Copy, Debug, PartialEq, Eq)]
pub enum Sort {
    Whole,
    Buffered,
    Refused(u32),
}

/// A piece was taken over: the target of the object that it broke, where one was being buffered, and what it comes to.
#[derive(Drop)]
pub struct TakenOver {
    pub broken: Option<Bytes>,
    pub sort: Sort,
}
