// Objects in pieces, what breaks them, and the way back.
ghost use Rattle.std.specs.Prelude.{◌≤◌, length};

use crate::object_rows::{SENT, Sent};
use dm_base::{Bytes, Memory};
use dm_objects::{Inbox, Piece, Taken, What};
use std::alloc::Global;
use std::test::Fail;
use syncml_types::{Step, Verb};

fn target_of(alloc: Global, text: &[u8]) -> Result<Option<Bytes>, Memory> {
    if text.is_empty() {
        return Ok(None);
    }
    Ok(Some(Bytes::of_slice(alloc, text)?))
}

/// An empty target is none.
pub(crate) fn piece(
    alloc: Global,
    verb: Verb,
    target: &[u8],
    bytes: &[u8],
    size: Option<u64>,
    more: bool,
) -> Result<Piece, Memory> {
    let value = Bytes::of_slice(alloc, bytes)?;
    let step = Step {
        verb,
        target: target_of(alloc, target)?,
        format: None,
        media: None,
        value,
        correlator: None,
        in_atomic: false,
    };
    Ok(Piece { step, size, more })
}

/// The code of a piece; 200 for a whole step.
pub(crate) fn code_of(taken: &Taken) -> u32 {
    match &taken.what {
        What::Whole(_) => 200,
        What::Buffered => 213,
        What::Refused(code) => *code,
    }
}

/// The value of a whole step.
pub(crate) fn value_of(taken: &Taken) -> &[u8] {
    match &taken.what {
        What::Whole(step) => step.value.as_slice(),
        What::Buffered => b"",
        What::Refused(_) => b"",
    }
}

fn broken_by(taken: &Taken) -> &[u8] {
    match &taken.broken {
        None => b"",
        Some(target) => target.as_slice(),
    }
}

fn is_told(taken: &Taken, sent: &Sent) -> bool {
    code_of(taken) == sent.5 && value_of(taken) == sent.6 && broken_by(taken) == sent.7
}

fn is_taken(alloc: Global, inbox: &mut Inbox, sent: &Sent) -> Result<bool, Memory> {
    let next = piece(alloc, sent.0, sent.1, sent.2, sent.3, sent.4)?;
    let answer = inbox.take(&next);
    drop(next);
    let taken = answer?;
    let is_told = is_told(&taken, sent);
    drop(taken);
    Ok(is_told)
}

fn first_wrong(alloc: Global, inbox: &mut Inbox) -> Result<Option<usize>, Memory> {
    for (row, sent) in SENT.iter().enumerate() {
        if !is_taken(alloc, inbox, sent)? {
            return Ok(Some(row));
        }
    }
    Ok(None)
}

// The number of the first row that comes to something else.
fn wrong_row(alloc: Global) -> Result<Option<usize>, Memory> {
    let mut inbox = Inbox::new(alloc, 10);
    let wrong = first_wrong(alloc, &mut inbox);
    drop(inbox);
    wrong
}

// What comes between a mark and the way back to it.
#[derive(Clone, Copy)]
enum Between {
    Nothing,
    More,
    Last,
    Other,
    Skip,
    Clear,
    Quiet,
}

#[tactic(auto, using(crate::proofs::Growing::taken_or_same))]
fn take(
    alloc: Global,
    inbox: &mut Inbox,
    target: &[u8],
    bytes: &[u8],
    size: Option<u64>,
    more: bool,
) -> Result<u32, Memory>
    ensures { length inbox.old.objects ≤ length inbox.new.objects }
{
    let next = piece(alloc, Verb::Add, target, bytes, size, more)?;
    let answer = inbox.take(&next);
    drop(next);
    let taken = answer?;
    let code = code_of(&taken);
    drop(taken);
    Ok(code)
}

#[tactic(auto, using(crate::proofs::Growing::held_or_same))]
fn skip(alloc: Global, inbox: &mut Inbox) -> Result<(), Memory>
    ensures { length inbox.old.objects ≤ length inbox.new.objects }
{
    let next = piece(alloc, Verb::Add, b"./A", b"c", None, true)?;
    let answer = inbox.skip(&next);
    drop(next);
    answer
}

#[tactic(auto, using(crate::proofs::Growing::held_or_same))]
fn quiet(inbox: &mut Inbox) -> Result<(), Memory>
    ensures { length inbox.old.objects ≤ length inbox.new.objects }
{
    drop(inbox.quiet()?);
    Ok(())
}

// Whatever comes adds to what was seen.
#[tactic(auto, using(crate::proofs::Growing::held))]
fn disturb(alloc: Global, inbox: &mut Inbox, between: Between) -> Result<(), Memory>
    ensures { length inbox.old.objects ≤ length inbox.new.objects }
{
    match between {
        Between::Nothing => {}
        Between::More => {
            take(alloc, inbox, b"./A", b"c", None, true)?;
        }
        Between::Last => {
            take(alloc, inbox, b"./A", b"cd", None, false)?;
        }
        Between::Other => {
            take(alloc, inbox, b"./B", b"x", Some(4), true)?;
        }
        Between::Skip => skip(alloc, inbox)?,
        Between::Clear => inbox.clear(),
        Between::Quiet => quiet(inbox)?,
    }
    Ok(())
}

const ALL: [Between; 7] = [
    Between::Nothing,
    Between::More,
    Between::Last,
    Between::Other,
    Between::Skip,
    Between::Clear,
    Between::Quiet,
];

// Whether the last piece makes the object whole.
fn is_whole(alloc: Global, inbox: &mut Inbox) -> Result<bool, Memory> {
    let next = piece(alloc, Verb::Add, b"./A", b"cd", None, false)?;
    let answer = inbox.take(&next);
    drop(next);
    let last = answer?;
    let is_whole = value_of(&last) == b"abcd".as_slice();
    drop(last);
    Ok(is_whole)
}

// A first piece, whatever comes behind it twice, back, and the last piece: the object is whole.
fn goes_back(
    alloc: Global,
    inbox: &mut Inbox,
    first: Between,
    second: Between,
    settles: bool,
) -> Result<bool, Memory> {
    take(alloc, inbox, b"./A", b"ab", Some(4), true)?;
    if settles {
        inbox.settle();
    }
    let mark = inbox.mark();
    disturb(alloc, inbox, first)?;
    disturb(alloc, inbox, second)?;
    inbox.back(mark);
    is_whole(alloc, inbox)
}

fn is_whole_after(
    alloc: Global,
    first: Between,
    second: Between,
    settles: bool,
) -> Result<bool, Memory> {
    let mut inbox = Inbox::new(alloc, 10);
    let is_whole = goes_back(alloc, &mut inbox, first, second, settles);
    drop(inbox);
    is_whole
}

// How many pairs there are after which the object isn't whole.
fn broken_ways(alloc: Global) -> Result<u32, Memory> {
    let mut count: u32 = 0;
    for first in &ALL {
        for second in &ALL {
            if !is_whole_after(alloc, *first, *second, false)?
                || !is_whole_after(alloc, *first, *second, true)?
            {
                count = count.saturating_add(1);
            }
        }
    }
    Ok(count)
}

#[test]
fn pieces_come_to_what_the_rules_say(rt: HostRuntime) -> Result<(), Fail> {
    assert_eq!(rt; wrong_row(rt.alloc())?, None);
    Ok(())
}

#[test]
fn what_stood_at_a_mark_is_there_again(rt: HostRuntime) -> Result<(), Fail> {
    assert_eq!(rt; broken_ways(rt.alloc())?, 0);
    Ok(())
}

// How long the target is that is told, where one is.
fn quiet_length(inbox: &mut Inbox) -> Result<Option<usize>, Memory> {
    let target = inbox.quiet()?;
    Ok(target.map(|target| target.len()))
}

#[test]
fn quiet_tells_what_was_buffered(rt: HostRuntime) -> Result<(), Fail> {
    let mut inbox = Inbox::new(rt.alloc(), 10);
    let none = quiet_length(&mut inbox);
    let begun = take(rt.alloc(), &mut inbox, b"./A", b"ab", Some(4), true);
    let before = inbox.buffering();
    let told = quiet_length(&mut inbox);
    let after = inbox.buffering();
    drop(inbox);
    assert_eq!(rt; (none?, begun?, told?), (None, 213, Some(3)));
    assert_eq!(rt; (before, after), (true, false));
    Ok(())
}

fn piece_inside(alloc: Global, bytes: &[u8], more: bool) -> Result<Piece, Memory> {
    let outside = piece(alloc, Verb::Add, b"./L", bytes, Some(4), more)?;
    Ok(Piece {
        step: Step {
            in_atomic: true,
            ..outside.step
        },
        size: outside.size,
        more: outside.more,
    })
}

fn taken_inside(alloc: Global, inbox: &mut Inbox, bytes: &[u8], more: bool) -> Result<u32, Memory> {
    let piece = piece_inside(alloc, bytes, more)?;
    Ok(code_of(&inbox.take(&piece)?))
}

// The first piece's code, whether it is being buffered inside before it is skipped and behind, and the next piece's
// code.
fn skipped_inside(alloc: Global, inbox: &mut Inbox) -> Result<(u32, bool, bool, u32), Memory> {
    let first = taken_inside(alloc, inbox, b"ab", true)?;
    let before = inbox.buffering_inside();
    inbox.skip_inside()?;
    let behind = inbox.buffering_inside();
    let next = taken_inside(alloc, inbox, b"cd", false)?;
    Ok((first, before, behind, next))
}

#[test]
fn an_object_inside_is_skipped(rt: HostRuntime) -> Result<(), Fail> {
    let mut inbox = Inbox::new(rt.alloc(), 100);
    assert_eq!(rt;
        skipped_inside(rt.alloc(), &mut inbox)?,
        (213, true, false, 500)
    );
    Ok(())
}
