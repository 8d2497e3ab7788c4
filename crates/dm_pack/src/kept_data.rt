// The Data of an entry that may be cut, kept apart from its command. It stands in a box, since most entries have none,
// and they wait in great numbers.
ghost use Rattle.std.specs.Prelude.{◌≡◌, ◌≤◌, ◌-◌, IfOk, length, drop};
ghost use Rattle.dm_pack.specs.Measures.{size_told, apart_value, apart_sent};

use dm_base::{Boxed, Bytes, Memory};
use std::alloc::Global;

/// Data, and how many bytes of it have gone out.
#[derive(Drop)]
pub(crate) struct Apart {
    pub value: Bytes,
    pub sent: usize,
}

/// Data of which nothing has gone out. Where there is no byte of it, it takes no memory.
pub(crate) fn kept_apart(alloc: Global, value: Bytes) -> Result<Option<Boxed<Apart>>, Memory>
    ensures value { IfOk result (λ apart. apart_value apart ≡ value) }
    ensures sent { IfOk result (λ apart. apart_sent apart ≡ 0) }
{
    if value.is_empty() {
        return Ok(None);
    }
    Ok(Some(Boxed::new(alloc, Apart { value, sent: 0 })?))
}

/// Equal Data.
pub(crate) fn copy_apart(
    alloc: Global,
    apart: &Option<Boxed<Apart>>,
) -> Result<Option<Boxed<Apart>>, Memory>
    ensures { IfOk result (λ copied. copied ≡ apart.now) }
{
    match apart {
        None => Ok(None),
        Some(kept) => {
            let copied = Apart {
                value: kept.inner.value.copy(alloc)?,
                sent: kept.inner.sent,
            };
            Ok(Some(Boxed::new(alloc, copied)?))
        }
    }
}

/// What hasn't gone out.
#[tactic(auto, using(crate::proofs::Apart::drop_slice))]
pub(crate) fn left_of(apart: &Option<Boxed<Apart>>) -> &[u8]
    requires within { apart_sent apart.now ≤ length (apart_value apart.now) }
    ensures { result.now ≡ drop (apart_sent apart.now) (apart_value apart.now) }
{
    match apart {
        None => &[],
        Some(kept) => &kept.inner.value.as_slice()[kept.inner.sent..],
    }
}

// What is left of bytes behind so many of them.
#[tactic(auto, using(crate::proofs::Moving::whole_value))]
fn rest_behind(value: Bytes, sent: usize) -> Bytes
    ensures { result ≡ drop sent value }
{
    if sent > 0 {
        let mut rest = value;
        rest.drop_front(sent);
        return rest;
    }
    value
}

/// What hasn't gone out, without a copy.
pub(crate) fn into_left(alloc: Global, apart: Option<Boxed<Apart>>) -> Bytes
    ensures { result ≡ drop (apart_sent apart) (apart_value apart) }
{
    match apart {
        None => Bytes::new(alloc),
        Some(kept) => {
            let Apart { value, sent } = kept.into_inner();
            rest_behind(value, sent)
        }
    }
}

/// How long the Data is, where none of it went out.
pub(crate) fn size_of(apart: &Option<Boxed<Apart>>) -> Option<u64>
    ensures { result ≡ size_told (apart_sent apart.now) (apart_value apart.now) }
{
    match apart {
        None => Some(0),
        Some(kept) => {
            if kept.inner.sent == 0 {
                Some(kept.inner.value.len() as u64)
            } else {
                None
            }
        }
    }
}

/// All but so many bytes have gone out.
pub(crate) fn leave(apart: &mut Option<Boxed<Apart>>, left: usize)
    requires within { left ≤ length (apart_value apart.old) }
    ensures value { apart_value apart.new ≡ apart_value apart.old }
    ensures sent { apart_sent apart.new ≡ length (apart_value apart.old) - left }
{
    match apart {
        None => {}
        Some(kept) => kept.inner.sent = kept.inner.value.len() - left,
    }
}
