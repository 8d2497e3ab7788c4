// What the bytes of a connection begin with.
ghost use Rattle.std.specs.Prelude.{◌≡◌, ◌≤◌, length};
ghost use Rattle.dm_heads.specs.Messages.{IsHeadSoFar, IsReplySoFar, IsRequestSoFar};

use crate::extents::{HeadVerdict, reply_verdict, request_verdict};
use httparse::Status;
use httparse::spans::{EMPTY_HEADER_SPAN, parse_request, parse_response};

const FIELD_LIMIT: usize = 32;

/// Which message is read.
#[derive(Clone, Copy, Debug, PartialEq, Eq)]
pub enum HeadKind {
    Reply,
    Request,
}

/// What the bytes so far begin with.
#[derive(Clone, Copy, Debug, PartialEq, Eq)]
pub enum HeadSoFar {
    /// A head of so many bytes, and what it makes of its message.
    Whole { verdict: HeadVerdict, len: usize },
    /// No head yet, but one may still come.
    Partial,
    /// No bytes can follow that make a head.
    Never,
}

fn reply_so_far(bytes: &[u8]) -> HeadSoFar
    requires { length bytes.now ≤ 8192 }
    ensures { IsReplySoFar bytes.now result }
{
    let mut headers = [EMPTY_HEADER_SPAN; FIELD_LIMIT];
    match parse_response(bytes, &mut headers) {
        Ok(Status::Complete(head)) => HeadSoFar::Whole {
            verdict: reply_verdict(head.code, bytes, &headers[..head.headers]),
            len: head.len,
        },
        Ok(Status::Partial) => HeadSoFar::Partial,
        Err(_) => HeadSoFar::Never,
    }
}

fn request_so_far(bytes: &[u8]) -> HeadSoFar
    requires { length bytes.now ≤ 8192 }
    ensures { IsRequestSoFar bytes.now result }
{
    let mut headers = [EMPTY_HEADER_SPAN; FIELD_LIMIT];
    match parse_request(bytes, &mut headers) {
        Ok(Status::Complete(head)) => HeadSoFar::Whole {
            verdict: request_verdict(head.method.of(bytes), bytes, &headers[..head.headers]),
            len: head.len,
        },
        Ok(Status::Partial) => HeadSoFar::Partial,
        Err(_) => HeadSoFar::Never,
    }
}

/// What bytes begin with that have room for one head, of at most 32 fields.
#[tactic(auto, unfolding(crate::specs::Messages::HasHead, crate::specs::Messages::MayBecomeHead))]
pub fn head_so_far(kind: HeadKind, bytes: &[u8]) -> HeadSoFar
    requires { length bytes.now ≤ 8192 }
    ensures { IsHeadSoFar kind bytes.now result }
{
    match kind {
        HeadKind::Reply => reply_so_far(bytes),
        HeadKind::Request => request_so_far(bytes),
    }
}
