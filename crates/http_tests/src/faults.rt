// Streams that fail: at each of the first calls, and never behind the last that is needed.
ghost use Rattle.std.specs.Prelude.{◌<◌};

use crate::requests::{MESSAGE, REFUSAL};
use crate::streams::{Answer, Outcome, Pace, REQUEST, is_posted, is_served};
use dm_base::{Bytes, Memory};
use dm_http::HttpError;
use std::alloc::Global;
use std::test::Fail;

const FAILED: Answer = Answer::Refused(HttpError::Failed);

// Whole with its 42nd byte.
const REPLY: &[u8] = b"HTTP/1.1 200 OK\r\nContent-Length: 4\r\n\r\nbodymore";

const POSTED: &[u8] = b"POST /dm HTTP/1.1\r\nHost: h\r\nContent-Length: 2\r\n\r\nok";

const ASKED: &[u8] = b"GET /dm HTTP/1.1\r\n\r\n";

fn front(bytes: &'static [u8], count: usize) -> &'static [u8] {
    &bytes[..count.min(bytes.len())]
}

// The first call whose fault isn't told, of so many that move `size` bytes each.
fn wrong_post(alloc: Global, size: usize, calls: u64) -> Result<Option<u64>, Memory>
    requires { 0 < size }
{
    for fails in 1..calls {
        let put = size.saturating_mul(fails as usize - 1);
        let reply = Bytes::of_slice(alloc, REPLY)?;
        if !is_posted(
            alloc,
            reply,
            Pace { size, fails },
            FAILED,
            front(REQUEST, put),
        )? {
            return Ok(Some(fails));
        }
    }
    Ok(None)
}

fn posts_past(alloc: Global, size: usize, fails: u64) -> Result<bool, Memory>
    requires { 0 < size }
{
    let body = Answer::Body(b"body");
    is_posted(
        alloc,
        Bytes::of_slice(alloc, REPLY)?,
        Pace { size, fails },
        body,
        REQUEST,
    )
}

// The request has 163 bytes: four puts of 50 bytes and a take, or 163 puts and 42 takes of one.
#[test]
fn a_post_fails_with_each_of_its_calls(rt: HostRuntime) -> Result<(), Fail> {
    assert_eq!(rt; wrong_post(rt.alloc(), 50, 6)?, None);
    assert!(rt; posts_past(rt.alloc(), 50, 6)?);
    assert_eq!(rt; wrong_post(rt.alloc(), 1, 206)?, None);
    assert!(rt; posts_past(rt.alloc(), 1, 206)?);
    Ok(())
}

// The first call whose fault isn't told, of so many of 50 bytes each. The first `takes` take the request, and behind
// them this was delivered and a beginning of the reply put.
fn wrong_service(
    alloc: Global,
    request: &[u8],
    takes: u64,
    calls: u64,
    reply: &'static [u8],
    delivered: &'static [u8],
) -> Result<Option<u64>, Memory> {
    for fails in 1..calls {
        let put = (fails.saturating_sub(takes).saturating_sub(1) as usize).saturating_mul(50);
        let wanted = Outcome {
            answer: Err(HttpError::Failed),
            got: front(reply, put),
            taken: if fails <= takes { b"" } else { delivered },
        };
        let text = Bytes::of_slice(alloc, request)?;
        if !is_served(alloc, text, Pace { size: 50, fails }, wanted)? {
            return Ok(Some(fails));
        }
    }
    Ok(None)
}

fn serves_past(alloc: Global, request: &[u8], fails: u64, wanted: Outcome) -> Result<bool, Memory> {
    let text = Bytes::of_slice(alloc, request)?;
    is_served(alloc, text, Pace { size: 50, fails }, wanted)
}

// Two takes and three puts for a message, and a take and two puts for a refusal.
#[test]
fn a_service_fails_with_each_of_its_calls(rt: HostRuntime) -> Result<(), Fail> {
    let taken = b"0123456789abcdefok".as_slice();
    let sent = Outcome {
        answer: Ok(()),
        got: MESSAGE,
        taken,
    };
    let refused = Outcome {
        answer: Err(HttpError::BadHead),
        got: REFUSAL,
        taken: b"",
    };
    assert_eq!(rt;
        wrong_service(rt.alloc(), POSTED, 2, 6, MESSAGE, taken)?,
        None
    );
    assert!(rt; serves_past(rt.alloc(), POSTED, 6, sent)?);
    assert_eq!(rt; wrong_service(rt.alloc(), ASKED, 1, 4, REFUSAL, b"")?, None);
    assert!(rt; serves_past(rt.alloc(), ASKED, 4, refused)?);
    Ok(())
}
