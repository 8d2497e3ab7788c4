// Every beginning of a reply.
use crate::answers::{Answer, CUT, is_answered};
use dm_base::{Bytes, Memory};
use dm_heads::{HeadKind, HttpError};
use std::alloc::Global;
use std::test::Fail;

const SIZED: &[u8] = b"HTTP/1.1 200 OK\r\nContent-Length: 4\r\n\r\nbody";

const UNSIZED: &[u8] = b"HTTP/1.1 200 OK\r\nServer: s\r\n\r\nbody";

const REFUSED: &[u8] = b"HTTP/1.1 503 Service Unavailable\r\nRetry-After: 9\r\n\r\nbody";

const UNAVAILABLE: Answer = Answer::Refused(HttpError::NotOk(503));

// What a beginning is answered that ends so many bytes behind the head: a body so far, where no length is stated.
fn answer_behind(count: usize, behind: Answer) -> Answer {
    match behind {
        Answer::Long(_) => Answer::Long(count),
        other => other,
    }
}

// The length of the first beginning that isn't answered so: inside the head it is cut off.
fn wrong_beginning(
    alloc: Global,
    reply: &[u8],
    head: usize,
    behind: Answer,
) -> Result<Option<usize>, Memory> {
    for count in 0..reply.len() {
        let wanted = if count < head {
            CUT
        } else {
            answer_behind(count - head, behind)
        };
        let text = Bytes::of_slice(alloc, &reply[..count])?;
        if !is_answered(alloc, HeadKind::Reply, text, 7, wanted) {
            return Ok(Some(count));
        }
    }
    Ok(None)
}

#[test]
fn every_beginning_of_a_reply_has_its_answer(rt: HostRuntime) -> Result<(), Fail> {
    assert_eq!(rt;
        wrong_beginning(rt.alloc(), SIZED, SIZED.len() - 4, CUT)?,
        None
    );
    assert_eq!(rt;
        wrong_beginning(rt.alloc(), UNSIZED, UNSIZED.len() - 4, Answer::Long(0))?,
        None
    );
    assert_eq!(rt;
        wrong_beginning(rt.alloc(), REFUSED, REFUSED.len() - 4, UNAVAILABLE)?,
        None
    );
    Ok(())
}
