// An object in many small pieces, and Data in many parts: the work is in proportion to the bytes.
ghost use Rattle.std.specs.Prelude.{◌≤◌, length};
ghost use Rattle.std.specs.List.{AllByRecursion};
ghost use Rattle.dm_pack.specs.Entries.{IsReady};

use crate::objects::{code_of, piece, value_of};
use crate::queues::{header, queue_of, repeated, sent};
use dm_base::Memory;
use dm_objects::{Inbox, Piece, Sort, Taken, TakenOver, What};
use dm_pack::Queue;
use std::alloc::Global;
use std::io;
use std::test::Fail;
use std::time::CpuClock;
use syncml_types::{Step, Verb};

// The most bytes that an object may have.
const SIZE: usize = 4_194_304;

// The bytes of a piece.
const PIECE: usize = 16;

// The most processor time that an object of so many bytes may take to be gathered, and Data of as many to be sent, in
// milliseconds. Measured were 100 and 9. Where each piece or each message went through all bytes, it would be through
// 550,000 and 5,000 million of them.
const MOST_GATHERING: u128 = 2000;

const MOST_SENDING: u128 = 180;

fn bytes_of_all(alloc: Global) -> Result<Vec<u8>, Memory> {
    let mut bytes = Vec::new(alloc);
    bytes.reserve(SIZE)?;
    for place in 0..SIZE {
        bytes.push((place % 251) as u8)?;
    }
    Ok(bytes)
}

fn taken(inbox: &mut Inbox, next: Piece) -> Result<Taken, Memory> {
    let answer = inbox.take(&next);
    drop(next);
    answer
}

// What a piece is that was taken over, by the step that stands in it now.
fn what_of(sort: Sort, step: Step) -> What {
    match sort {
        Sort::Whole => What::Whole(step),
        Sort::Buffered => What::Buffered,
        Sort::Refused(code) => What::Refused(code),
    }
}

fn taken_over(inbox: &mut Inbox, next: Piece) -> Result<Taken, Memory> {
    let mut next = next;
    let TakenOver { broken, sort } = inbox.take_over(&mut next)?;
    let what = what_of(sort, next.step);
    Ok(Taken { broken, what })
}

// What a piece comes to that is taken over, or only read.
fn told(
    alloc: Global,
    inbox: &mut Inbox,
    bytes: &[u8],
    size: Option<u64>,
    more: bool,
    over: bool,
) -> Result<Taken, Memory> {
    let next = piece(alloc, Verb::Add, b"./L", bytes, size, more)?;
    if over {
        taken_over(inbox, next)
    } else {
        taken(inbox, next)
    }
}

// Takes bytes in pieces behind which more follow, and settles behind every 500 of them. The answer is how many were
// buffered.
fn buffered(alloc: Global, inbox: &mut Inbox, bytes: &[u8], over: bool) -> Result<usize, Memory> {
    let mut size = Some(SIZE as u64);
    let mut count: usize = 0;
    for part in bytes.chunks(PIECE) {
        let code = code_of(&told(alloc, inbox, part, size, true, over)?);
        if code == 213 {
            count = count.saturating_add(1);
        }
        if count % 500 == 0 {
            inbox.settle();
        }
        size = None;
    }
    Ok(count)
}

// Whether the pieces of these bytes are buffered, and the last of them brings all.
fn is_whole(alloc: Global, inbox: &mut Inbox, bytes: &[u8], over: bool) -> Result<bool, Memory> {
    let (front, behind) = bytes.split_at(bytes.len().saturating_sub(PIECE));
    let count = buffered(alloc, inbox, front, over)?;
    let last = told(alloc, inbox, behind, None, false, over)?;
    Ok(count == front.len() / PIECE && value_of(&last) == bytes)
}

fn is_gathered(alloc: Global, bytes: &[u8], over: bool) -> Result<bool, Memory> {
    let mut inbox = Inbox::new(alloc, 4_194_304);
    let is_whole = is_whole(alloc, &mut inbox, bytes, over);
    drop(inbox);
    is_whole
}

// How many bytes of Data go out in parts until nothing is left: all but the last one's.
fn sent_of(alloc: Global, queue: &mut Queue) -> Result<u64, Memory>
    requires { AllByRecursion IsReady queue.old }
{
    let mut bytes: u64 = 0;
    for _ in 0..10_000 {
        if queue.len() == 0 {
            break;
        }
        let told = sent(queue, header(alloc)?, 2048, true)?;
        bytes = bytes.saturating_add(told.1);
    }
    Ok(bytes)
}

// How many bytes of Data go out in parts, and how many entries are left then.
fn sent_and_left(alloc: Global, queue: Queue) -> Result<(u64, usize), Memory>
    requires { AllByRecursion IsReady queue }
{
    let mut queue = queue;
    let sent = sent_of(alloc, &mut queue);
    let left = queue.len();
    drop(queue);
    Ok((sent?, left))
}

// The processor time so far, in milliseconds.
fn now(rt: &HostRuntime) -> io::Result<u128> {
    Ok(rt.process_cpu_time()?.as_millis())
}

#[test]
fn many_small_pieces_are_gathered_in_time(rt: HostRuntime) -> Result<(), Fail> {
    let bytes = bytes_of_all(rt.alloc())?;
    for over in [true, false] {
        let begun = now(&rt)?;
        assert!(rt; is_gathered(rt.alloc(), bytes.as_slice(), over)?);
        let took = now(&rt)?.saturating_sub(begun);
        assert!(rt; took <= MOST_GATHERING);
    }
    Ok(())
}

#[test]
fn many_parts_are_sent_in_time(rt: HostRuntime) -> Result<(), Fail> {
    let value = repeated(rt.alloc(), SIZE / 2, b"aa")?;
    assert!(rt; value.len() == SIZE);
    let queue = queue_of(rt.alloc(), value)?;
    let begun = now(&rt)?;
    let told = sent_and_left(rt.alloc(), queue)?;
    let took = now(&rt)?.saturating_sub(begun);
    assert!(rt; told.0 < SIZE as u64 && told.0.saturating_add(2048) > SIZE as u64);
    assert_eq!(rt; told.1, 0);
    assert!(rt; took <= MOST_SENDING);
    Ok(())
}
