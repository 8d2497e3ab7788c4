// Requests: what is read, and what is refused.
use crate::answers::{Answer, BAD_HEAD, CUT, Row, TOO_LONG, wrong_row};
use dm_heads::HeadKind;
use std::test::Fail;

const POST: &[u8] = b"POST /dm HTTP/1.1\r\nHost: h\r\n";

#[rattlefmt::skip]
const ROWS: [Row; 17] = [
    (&[(POST, 1), (b"Content-Length: 2\r\n\r\nok", 1)], Answer::Body(b"ok")),
    (&[(POST, 1), (b"Content-Length: 2\r\n\r\nokPOST /dm", 1)], Answer::Body(b"ok")),
    (&[(b"POST http://h/dm?x=%20 HTTP/1.0\r\ncontent-length: 2\n\nok", 1)], Answer::Body(b"ok")),
    // A target of bytes beyond ASCII, in UTF-8.
    (&[(b"POST /\xc3\xa9 HTTP/1.1\r\nContent-Length: 2\r\n\r\nok", 1)], Answer::Body(b"ok")),
    (&[(b"POST /\xc3 HTTP/1.1\r\nContent-Length: 2\r\n\r\nok", 1)], BAD_HEAD),
    // No interim reply is sent.
    (&[(POST, 1), (b"Expect: 100-continue\r\nContent-Length: 2\r\n\r\nok", 1)], Answer::Body(b"ok")),
    (&[(POST, 1), (b"Content-Length: 65537\r\n\r\n", 1)], TOO_LONG),
    (&[(POST, 1), (b"Content-Length: 3\r\n\r\nok", 1)], CUT),
    (&[(POST, 1), (b"\r\n", 1)], BAD_HEAD),
    (&[(POST, 1), (b"Transfer-Encoding: chunked\r\nContent-Length: 2\r\n\r\nok", 1)], BAD_HEAD),
    (&[(b"GET /dm HTTP/1.1\r\n\r\n", 1)], BAD_HEAD),
    (&[(b"GET /dm HTTP/1.1\r\nContent-Length: 2\r\n\r\nok", 1)], BAD_HEAD),
    (&[(b"GET /dm HTTP/1.1\r\nContent-Length: 65537\r\n\r\n", 1)], BAD_HEAD),
    (&[(b"post /dm HTTP/1.1\r\nContent-Length: 2\r\n\r\nok", 1)], BAD_HEAD),
    (&[(b"PRI * HTTP/2.0\r\n\r\nSM\r\n\r\n", 1)], BAD_HEAD),
    (&[(b"POST  /dm HTTP/1.1\r\nContent-Length: 2\r\n\r\nok", 1)], BAD_HEAD),
    (&[(b"POST /dm", 1)], CUT),
];

#[test]
fn requests_are_read_however_they_are_cut(rt: HostRuntime) -> Result<(), Fail> {
    assert_eq!(rt; wrong_row(rt.alloc(), HeadKind::Request, &ROWS, 1)?, None);
    assert_eq!(rt; wrong_row(rt.alloc(), HeadKind::Request, &ROWS, 7)?, None);
    assert_eq!(rt;
        wrong_row(rt.alloc(), HeadKind::Request, &ROWS, 100_000)?,
        None
    );
    Ok(())
}
