// A source that fails: before the answer is settled, and never behind it.
ghost use Rattle.std.specs.Prelude.{◌<◌};

use crate::answers::{Answer, is_wanted};
use dm_base::{Bytes, List, MemSource, Memory};
use dm_heads::{HeadKind, HttpError, receive};
use std::alloc::Global;
use std::test::Fail;

const REPLY: &[u8] = b"HTTP/1.1 200 OK\r\nContent-Length: 4\r\n\r\nbody, and more";

// Whether the reply is answered so, where this call of its source fails.
fn is_answered_where(alloc: Global, size: usize, fails: u64, wanted: Answer) -> Result<bool, Memory>
    requires { 0 < size }
{
    let mut numbers = List::new(alloc);
    numbers.push(fails)?;
    let mut src = MemSource::new(Bytes::of_slice(alloc, REPLY)?, size, numbers);
    Ok(is_wanted(&receive(alloc, &mut src, HeadKind::Reply), wanted))
}

// The reply is whole with its 42nd byte.
#[test]
fn a_fault_behind_the_answer_is_never_met(rt: HostRuntime) -> Result<(), Fail> {
    let failed = Answer::Refused(HttpError::Failed);
    let body = Answer::Body(b"body");
    for fails in 1..43u64 {
        assert!(rt;
            is_answered_where(rt.alloc(), 1, fails, failed)?,
            "call {fails}"
        );
    }
    assert!(rt; is_answered_where(rt.alloc(), 1, 43, body)?);
    assert!(rt; is_answered_where(rt.alloc(), 7, 6, failed)?);
    assert!(rt; is_answered_where(rt.alloc(), 7, 7, body)?);
    Ok(())
}
