// What replies are answered, by the rules on their heads.
ghost use Rattle.std.specs.Prelude.{◌<◌};

use crate::streams::{Answer, Pace, Pieces, REQUEST, is_posted, text_of};
use dm_base::Memory;
use dm_http::HttpError;
use std::alloc::Global;
use std::test::Fail;

const BAD_HEAD: Answer = Answer::Refused(HttpError::BadHead);

const TOO_LONG: Answer = Answer::Refused(HttpError::TooLong);

const CUT: Answer = Answer::Refused(HttpError::Cut);

const OK: &[u8] = b"HTTP/1.1 200 OK\r\n";

const OK_TWO: &[u8] = b"HTTP/1.1 200 OK\r\nContent-Length: 2\r\n";

#[rattlefmt::skip]
const ROWS: [(Pieces, Answer); 33] = [
    (&[(OK_TWO, 1), (b"\r\nokmore", 1)], Answer::Body(b"ok")),
    // No reason phrase, lines that end by LF alone, an empty line first.
    (&[(b"HTTP/1.1 200\r\nContent-Length: 2\r\n\r\nok", 1)], Answer::Body(b"ok")),
    (&[(b"\nHTTP/1.0 200 OK\ncontent-LENGTH: 2\n\nok", 1)], Answer::Body(b"ok")),
    (&[(OK, 1), (b"\r\n", 1), (b"0123456789abcdef", 4096)], Answer::Long(65536)),
    (&[(OK, 1), (b"\r\n", 1), (b"0123456789abcdef", 4096), (b"x", 1)], TOO_LONG),
    (&[(OK, 1), (b"Content-Length: 65536\r\n\r\n", 1), (b"0123456789abcdef", 4096)], Answer::Long(65536)),
    (&[(OK, 1), (b"Content-Length: 65537\r\n\r\nok", 1)], TOO_LONG),
    (&[(b"HTTP/1.1 404 Not Found\r\n\r\n", 1)], Answer::Refused(HttpError::NotOk(404))),
    (&[(b"HTTP/1.1 204 No Content\r\nConnection: close\r\n\r\n", 1)], Answer::Refused(HttpError::NotOk(204))),
    (&[(b"HTTP/1.1 500 X\r\nContent-Length: 65537\r\n\r\nok", 1)], Answer::Refused(HttpError::NotOk(500))),
    (&[(b"HTTP/1.1 404 X\r\nTransfer-Encoding: x\r\n\r\n", 1)], BAD_HEAD),
    // Two lengths, a sign, a zero first, none.
    (&[(OK_TWO, 1), (b"content-length: 2\r\n\r\nok", 1)], BAD_HEAD),
    (&[(OK, 1), (b"Content-Length: +2\r\n\r\nok", 1)], BAD_HEAD),
    (&[(OK, 1), (b"Content-Length: 02\r\n\r\nok", 1)], BAD_HEAD),
    (&[(OK, 1), (b"Content-Length:\r\n\r\nok", 1)], BAD_HEAD),
    // 2 to the power of 64, and numbers of 20 and of 21 digits.
    (&[(OK, 1), (b"Content-Length: 18446744073709551616\r\n\r\n", 1)], TOO_LONG),
    (&[(OK, 1), (b"Content-Length: 99999999999999999999\r\n\r\n", 1)], TOO_LONG),
    (&[(OK, 1), (b"Content-Length: 100000000000000000000\r\n\r\n", 1)], BAD_HEAD),
    (&[(OK, 1), (b"Transfer-Encoding: chunked\r\n\r\n0\r\n\r\n", 1)], BAD_HEAD),
    (&[(OK_TWO, 1), (b"tRANSFER-eNCODING: identity\r\n\r\nok", 1)], BAD_HEAD),
    // 32 and 33 fields; a head of 8,192 and of 8,193 bytes.
    (&[(OK, 1), (b"X: a\r\n", 32), (b"\r\nok", 1)], Answer::Body(b"ok")),
    (&[(OK, 1), (b"X: a\r\n", 33), (b"\r\nok", 1)], BAD_HEAD),
    (&[(OK, 1), (b"X: ", 1), (b"a", 8168), (b"\r\n\r\nok", 1)], Answer::Body(b"ok")),
    (&[(OK, 1), (b"X: ", 1), (b"a", 8169), (b"\r\n\r\nok", 1)], BAD_HEAD),
    // Folded lines, the bytes 00 and 80, other versions.
    (&[(OK, 1), (b"X: a\r\n b\r\n\r\n", 1)], BAD_HEAD),
    (&[(OK, 1), (b"X: \x00\r\n\r\n", 1)], BAD_HEAD),
    (&[(OK, 1), (b"X: \x80\r\n\r\nok", 1)], Answer::Body(b"ok")),
    (&[(OK, 1), (b"X\x80: a\r\n\r\n", 1)], BAD_HEAD),
    (&[(b"HTTP/1.2 200 OK\r\n\r\n", 1)], BAD_HEAD),
    (&[(b"HTTP/2 200\r\n\r\n", 1)], BAD_HEAD),
    (&[(OK, 1), (b"Content-Length: 3\r\n\r\nok", 1)], CUT),
    (&[(OK, 1), (b"Content-Length: 3\r\n", 1)], CUT),
    (&[], CUT),
];

// The number of the first row that is answered otherwise. The request was put whole before each.
fn wrong_row(alloc: Global, size: usize) -> Result<Option<usize>, Memory>
    requires { 0 < size }
{
    for (number, (pieces, wanted)) in ROWS.iter().enumerate() {
        let pace = Pace { size, fails: 0 };
        if !is_posted(alloc, text_of(alloc, pieces)?, pace, *wanted, REQUEST)? {
            return Ok(Some(number));
        }
    }
    Ok(None)
}

#[test]
fn replies_are_answered_however_they_are_cut(rt: HostRuntime) -> Result<(), Fail> {
    assert_eq!(rt; wrong_row(rt.alloc(), 1)?, None);
    assert_eq!(rt; wrong_row(rt.alloc(), 7)?, None);
    assert_eq!(rt; wrong_row(rt.alloc(), 100_000)?, None);
    Ok(())
}
