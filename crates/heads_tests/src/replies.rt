// Replies: what is read, and what is refused.
use crate::answers::{Answer, BAD_HEAD, CUT, Row, TOO_LONG, wrong_row};
use dm_heads::{HeadKind, HttpError};
use std::test::Fail;

const OK: &[u8] = b"HTTP/1.1 200 OK\r\n";

const OK_TWO: &[u8] = b"HTTP/1.1 200 OK\r\nContent-Length: 2\r\n";

#[rattlefmt::skip]
const BODIES: [Row; 14] = [
    (&[(OK_TWO, 1), (b"\r\nok", 1)], Answer::Body(b"ok")),
    (&[(OK_TWO, 1), (b"\r\nokmore", 1)], Answer::Body(b"ok")),
    (&[(OK, 1), (b"\r\nok", 1)], Answer::Body(b"ok")),
    (&[(OK, 1), (b"\r\n", 1)], Answer::Body(b"")),
    (&[(OK, 1), (b"Content-Length: 0\r\n\r\n", 1)], Answer::Body(b"")),
    (&[(b"HTTP/1.0 200 OK\r\ncontent-LENGTH:2\r\n\r\nok", 1)], Answer::Body(b"ok")),
    // No reason phrase, with and without the space before it; one beyond ASCII.
    (&[(b"HTTP/1.1 200\r\nContent-Length: 2\r\n\r\nok", 1)], Answer::Body(b"ok")),
    (&[(b"HTTP/1.1 200 \r\nContent-Length: 2\r\n\r\nok", 1)], Answer::Body(b"ok")),
    (&[(b"HTTP/1.1 200 \x80\r\n\r\nok", 1)], Answer::Body(b"ok")),
    // Empty lines first, lines that end by LF alone, blanks around a value.
    (&[(b"\r\n\nHTTP/1.1 200 OK\nContent-Length: \t2 \n\nok", 1)], Answer::Body(b"ok")),
    // Neither the coding of the content nor its type is looked at.
    (&[(OK, 1), (b"Content-Encoding: gzip\r\nContent-Type: text/html\r\n\r\nok", 1)], Answer::Body(b"ok")),
    (&[(OK, 1), (b"X: \x80\r\n\r\nok", 1)], Answer::Body(b"ok")),
    (&[(OK, 1), (b"Content-Length: 65536\r\n\r\n", 1), (b"0123456789abcdef", 4096), (b"more", 1)], Answer::Long(65536)),
    (&[(OK, 1), (b"\r\n", 1), (b"0123456789abcdef", 4096)], Answer::Long(65536)),
];

// A head that isn't read goes before its status, this before its length, and all before a body that is cut.
#[rattlefmt::skip]
const ORDER: [Row; 12] = [
    (&[(b"HTTP/1.1 404 Not Found\r\n\r\n", 1)], Answer::Refused(HttpError::NotOk(404))),
    (&[(b"HTTP/1.1 204 No Content\r\nConnection: close\r\n\r\n", 1)], Answer::Refused(HttpError::NotOk(204))),
    (&[(b"HTTP/1.1 100 Continue\r\n\r\nHTTP/1.1 200 OK\r\n\r\nok", 1)], Answer::Refused(HttpError::NotOk(100))),
    (&[(b"HTTP/1.1 000 X\r\n\r\n", 1)], Answer::Refused(HttpError::NotOk(0))),
    (&[(b"HTTP/1.1 404 X\r\nTransfer-Encoding: x\r\n\r\n", 1)], BAD_HEAD),
    (&[(b"HTTP/1.1 404 X\r\nContent-Length: 02\r\n\r\n", 1)], BAD_HEAD),
    (&[(b"HTTP/1.1 500 X\r\nContent-Length: 65537\r\n\r\nok", 1)], Answer::Refused(HttpError::NotOk(500))),
    (&[(OK, 1), (b"Content-Length: 65537\r\n\r\nok", 1)], TOO_LONG),
    (&[(OK, 1), (b"\r\n", 1), (b"0123456789abcdef", 4096), (b"x", 1)], TOO_LONG),
    (&[(OK, 1), (b"Content-Length: 3\r\n\r\nok", 1)], CUT),
    (&[(OK, 1), (b"Content-Length: 3\r\n", 1)], CUT),
    (&[], CUT),
];

#[rattlefmt::skip]
const LENGTHS: [Row; 16] = [
    (&[(OK_TWO, 1), (b"Content-Length: 2\r\n\r\nok", 1)], BAD_HEAD),
    (&[(OK_TWO, 1), (b"content-length: 3\r\n\r\nok", 1)], BAD_HEAD),
    (&[(OK, 1), (b"Content-Length: 2, 2\r\n\r\nok", 1)], BAD_HEAD),
    (&[(OK, 1), (b"Content-Length: +2\r\n\r\nok", 1)], BAD_HEAD),
    (&[(OK, 1), (b"Content-Length: -2\r\n\r\nok", 1)], BAD_HEAD),
    (&[(OK, 1), (b"Content-Length: 02\r\n\r\nok", 1)], BAD_HEAD),
    (&[(OK, 1), (b"Content-Length: 2 x\r\n\r\nok", 1)], BAD_HEAD),
    (&[(OK, 1), (b"Content-Length:\r\n\r\nok", 1)], BAD_HEAD),
    // 2 to the power of 64, and numbers of 20 and of 21 digits.
    (&[(OK, 1), (b"Content-Length: 18446744073709551616\r\n\r\n", 1)], TOO_LONG),
    (&[(OK, 1), (b"Content-Length: 18446744073709551618\r\n\r\nok", 1)], TOO_LONG),
    (&[(OK, 1), (b"Content-Length: 99999999999999999999\r\n\r\n", 1)], TOO_LONG),
    (&[(OK, 1), (b"Content-Length: 100000000000000000000\r\n\r\n", 1)], BAD_HEAD),
    (&[(OK, 1), (b"Transfer-Encoding: chunked\r\n\r\n0\r\n\r\n", 1)], BAD_HEAD),
    (&[(OK, 1), (b"tRANSFER-eNCODING: identity\r\n\r\nok", 1)], BAD_HEAD),
    (&[(OK_TWO, 1), (b"transfer-encoding:\r\n\r\nok", 1)], BAD_HEAD),
    (&[(OK_TWO, 1), (b"Transfer-Encodings: chunked\r\n\r\nok", 1)], Answer::Body(b"ok")),
];

// What isn't of the grammar, up to which the stream need not be read.
#[rattlefmt::skip]
const GRAMMAR: [Row; 17] = [
    (&[(b"HTTP/2", 1)], BAD_HEAD),
    (&[(b"HTTP/1.", 1)], CUT),
    (&[(b"HTTP/1.2", 1)], BAD_HEAD),
    (&[(b"http/1.1 200 OK\r\n\r\n", 1)], BAD_HEAD),
    (&[(b"HTTP/1.1 20 OK\r\n\r\n", 1)], BAD_HEAD),
    (&[(b"HTTP/1.1 2000 OK\r\n\r\n", 1)], BAD_HEAD),
    (&[(b" HTTP/1.1 200 OK\r\n\r\n", 1)], BAD_HEAD),
    (&[(OK, 1), (b"X : a\r\n\r\n", 1)], BAD_HEAD),
    (&[(OK, 1), (b": a\r\n\r\n", 1)], BAD_HEAD),
    (&[(OK, 1), (b"X\r\n\r\n", 1)], BAD_HEAD),
    // A folded line, a CR alone, the bytes 00 and 80.
    (&[(OK, 1), (b"X: a\r\n b\r\n\r\n", 1)], BAD_HEAD),
    (&[(OK, 1), (b"X: a\rb\r\n\r\n", 1)], BAD_HEAD),
    (&[(OK, 1), (b"X: \x00\r\n\r\n", 1)], BAD_HEAD),
    (&[(OK, 1), (b"X\x80: a\r\n\r\n", 1)], BAD_HEAD),
    (&[(b"HTTP/1.1 200 \x00\r\n\r\n", 1)], BAD_HEAD),
    (&[(b"\x00", 1)], BAD_HEAD),
    (&[(b"<html>", 1)], BAD_HEAD),
];

// 32 and 33 fields; a head of 8,192 and of 8,193 bytes, in few fields and in many.
#[rattlefmt::skip]
const LIMITS: [Row; 8] = [
    (&[(OK, 1), (b"X: a\r\n", 32), (b"\r\nok", 1)], Answer::Body(b"ok")),
    (&[(OK, 1), (b"X: a\r\n", 33), (b"\r\nok", 1)], BAD_HEAD),
    (&[(OK_TWO, 1), (b"X: a\r\n", 31), (b"\r\nok", 1)], Answer::Body(b"ok")),
    (&[(OK_TWO, 1), (b"X: a\r\n", 32), (b"\r\nok", 1)], BAD_HEAD),
    (&[(OK, 1), (b"X: ", 1), (b"a", 8168), (b"\r\n\r\nok", 1)], Answer::Body(b"ok")),
    (&[(OK, 1), (b"X: ", 1), (b"a", 8169), (b"\r\n\r\nok", 1)], BAD_HEAD),
    (&[(b"\n", 8192), (OK, 1)], BAD_HEAD),
    (&[(b"\r\n", 4000), (OK, 1), (b"\r\nok", 1)], Answer::Body(b"ok")),
];

fn wrong_rows(rt: &HostRuntime, rows: &[Row]) -> Result<[Option<usize>; 3], Fail> {
    Ok([
        wrong_row(rt.alloc(), HeadKind::Reply, rows, 1)?,
        wrong_row(rt.alloc(), HeadKind::Reply, rows, 7)?,
        wrong_row(rt.alloc(), HeadKind::Reply, rows, 100_000)?,
    ])
}

#[test]
fn replies_are_read_however_they_are_cut(rt: HostRuntime) -> Result<(), Fail> {
    assert_eq!(rt; wrong_rows(&rt, &BODIES)?, [None; 3]);
    assert_eq!(rt; wrong_rows(&rt, &LIMITS)?, [None; 3]);
    Ok(())
}

#[test]
fn replies_are_refused_for_the_first_reason(rt: HostRuntime) -> Result<(), Fail> {
    assert_eq!(rt; wrong_rows(&rt, &ORDER)?, [None; 3]);
    assert_eq!(rt; wrong_rows(&rt, &LENGTHS)?, [None; 3]);
    assert_eq!(rt; wrong_rows(&rt, &GRAMMAR)?, [None; 3]);
    Ok(())
}
