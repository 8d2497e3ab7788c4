// Every beginning of three replies, in pieces of 1, 7 and all their bytes.
ghost use Rattle.std.specs.Prelude.{◌<◌};

use crate::streams::{Answer, Pace, REQUEST, is_posted};
use dm_base::{Bytes, Memory};
use dm_http::HttpError;
use std::alloc::Global;
use std::test::Fail;

const CUT: Answer = Answer::Refused(HttpError::Cut);

// Whole with its 42nd byte.
const SIZED: &[u8] = b"HTTP/1.1 200 OK\r\nContent-Length: 4\r\n\r\nbodymore";

// Its head has 30 bytes.
const UNSIZED: &[u8] = b"HTTP/1.1 200 OK\r\nServer: s\r\n\r\nbody";

// No head from its 24th byte on, a blank behind a name.
const FAULTY: &[u8] = b"HTTP/1.1 200 OK\r\nServer : s\r\n\r\nbody";

// What so many bytes behind the end of the head, or of the message, are answered: a body so far, where no length is
// stated.
fn answer_behind(count: usize, behind: Answer) -> Answer {
    match behind {
        Answer::Long(_) => Answer::Long(count),
        other => other,
    }
}

// The length of the first beginning that isn't answered so: those of less than `end` bytes are cut off.
fn wrong_beginning(
    alloc: Global,
    reply: &[u8],
    size: usize,
    end: usize,
    behind: Answer,
) -> Result<Option<usize>, Memory>
    requires { 0 < size }
{
    for count in 0..reply.len() {
        let wanted = if count < end {
            CUT
        } else {
            answer_behind(count - end, behind)
        };
        let text = Bytes::of_slice(alloc, &reply[..count])?;
        let pace = Pace { size, fails: 0 };
        if !is_posted(alloc, text, pace, wanted, REQUEST)? {
            return Ok(Some(count));
        }
    }
    Ok(None)
}

fn wrong_beginnings(
    alloc: Global,
    reply: &[u8],
    end: usize,
    behind: Answer,
) -> Result<[Option<usize>; 3], Memory> {
    Ok([
        wrong_beginning(alloc, reply, 1, end, behind)?,
        wrong_beginning(alloc, reply, 7, end, behind)?,
        wrong_beginning(alloc, reply, 1000, end, behind)?,
    ])
}

#[test]
fn every_beginning_of_a_reply_has_its_answer(rt: HostRuntime) -> Result<(), Fail> {
    let body = Answer::Body(b"body");
    let bad = Answer::Refused(HttpError::BadHead);
    assert_eq!(rt; wrong_beginnings(rt.alloc(), SIZED, 42, body)?, [None; 3]);
    assert_eq!(rt;
        wrong_beginnings(rt.alloc(), UNSIZED, 30, Answer::Long(0))?,
        [None; 3]
    );
    assert_eq!(rt; wrong_beginnings(rt.alloc(), FAULTY, 24, bad)?, [None; 3]);
    Ok(())
}
