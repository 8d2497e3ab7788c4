// What requests come to: the answer, the reply, and what was delivered.
ghost use Rattle.std.specs.Prelude.{◌<◌};

use crate::streams::{Outcome, Pace, Pieces, is_served, text_of};
use dm_base::Memory;
use dm_http::HttpError;
use std::alloc::Global;
use std::test::Fail;

pub(crate) const POST: &[u8] = b"POST /dm HTTP/1.1\r\nHost: h\r\n";

pub(crate) const MESSAGE: &[u8] =
    b"HTTP/1.1 200 OK\r\nContent-Type: application/vnd.syncml.dm+wbxml\r\nContent-Length: 18\r\n\
Connection: close\r\n\r\n0123456789abcdefok";

const OVER: &[u8] = b"HTTP/1.1 204 No Content\r\nConnection: close\r\n\r\n";

pub(crate) const REFUSAL: &[u8] =
    b"HTTP/1.1 400 Bad Request\r\nContent-Length: 0\r\nConnection: close\r\n\r\n";

const SENT: Outcome = Outcome {
    answer: Ok(()),
    got: MESSAGE,
    taken: b"0123456789abcdefok",
};

const BAD_HEAD: Outcome = Outcome {
    answer: Err(HttpError::BadHead),
    got: REFUSAL,
    taken: b"",
};

const TOO_LONG: Outcome = Outcome {
    answer: Err(HttpError::TooLong),
    got: REFUSAL,
    taken: b"",
};

const CUT: Outcome = Outcome {
    answer: Err(HttpError::Cut),
    got: REFUSAL,
    taken: b"",
};

#[rattlefmt::skip]
const ROWS: [(Pieces, Outcome); 18] = [
    (&[(POST, 1), (b"Content-Length: 2\r\n\r\nok", 1)], SENT),
    // What stands behind the length isn't looked at.
    (&[(POST, 1), (b"Content-Length: 2\r\n\r\nokmore", 1)], SENT),
    (&[(b"POST http://h/dm HTTP/1.0\ncontent-length: 2\n\nok", 1)], SENT),
    (&[(POST, 1), (b"Expect: 100-continue\r\nContent-Length: 2\r\n\r\nok", 1)], SENT),
    (&[(POST, 1), (b"Content-Length: 1\r\n\r\nx", 1)],
        Outcome { answer: Ok(()), got: OVER, taken: b"0123456789abcdefx" }),
    // The core takes no message without bytes.
    (&[(POST, 1), (b"Content-Length: 0\r\n\r\n", 1)],
        Outcome { answer: Ok(()), got: REFUSAL, taken: b"0123456789abcdef" }),
    (&[(b"GET /dm HTTP/1.1\r\n\r\n", 1)], BAD_HEAD),
    (&[(b"GET /dm HTTP/1.1\r\nContent-Length: 2\r\n\r\nok", 1)], BAD_HEAD),
    (&[(b"GET /dm HTTP/1.1\r\nContent-Length: 65537\r\n\r\n", 1)], BAD_HEAD),
    (&[(POST, 1), (b"\r\nok", 1)], BAD_HEAD),
    (&[(POST, 1), (b"Content-Length: 2\r\nContent-Length: 2\r\n\r\nok", 1)], BAD_HEAD),
    (&[(POST, 1), (b"Transfer-Encoding: chunked\r\nContent-Length: 2\r\n\r\nok", 1)], BAD_HEAD),
    (&[(b"POST /dm HTTP/1.2\r\nContent-Length: 2\r\n\r\nok", 1)], BAD_HEAD),
    (&[(POST, 1), (b"X: a\r\n", 32), (b"Content-Length: 2\r\n\r\nok", 1)], BAD_HEAD),
    (&[(POST, 1), (b"Content-Length: 65537\r\n\r\nok", 1)], TOO_LONG),
    (&[(POST, 1), (b"Content-Length: 3\r\n\r\nok", 1)], CUT),
    (&[(POST, 1)], CUT),
    (&[], CUT),
];

// The number of the first row that comes to something else.
fn wrong_row(alloc: Global, size: usize) -> Result<Option<usize>, Memory>
    requires { 0 < size }
{
    for (number, (pieces, wanted)) in ROWS.iter().enumerate() {
        let pace = Pace { size, fails: 0 };
        if !is_served(alloc, text_of(alloc, pieces)?, pace, *wanted)? {
            return Ok(Some(number));
        }
    }
    Ok(None)
}

#[test]
fn requests_are_served_however_they_are_cut(rt: HostRuntime) -> Result<(), Fail> {
    assert_eq!(rt; wrong_row(rt.alloc(), 1)?, None);
    assert_eq!(rt; wrong_row(rt.alloc(), 7)?, None);
    assert_eq!(rt; wrong_row(rt.alloc(), 100_000)?, None);
    Ok(())
}
