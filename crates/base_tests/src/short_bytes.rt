// Lists of bytes on both sides of 16 bytes, where they begin to take a block, and values in boxes.
ghost use Rattle.std.specs.Prelude.{◌≤◌};

use dm_base::{Boxed, Bytes, Memory};
use std::alloc::Global;
use std::test::Fail;

const DIGITS: &[u8; 20] = b"0123456789abcdefghij";

// Whether a list of so many digits is kept while bytes come behind it and go in front.
fn is_kept(alloc: Global, length: usize) -> Result<bool, Memory>
    requires { length ≤ 20 }
{
    let mut list = Bytes::of_slice(alloc, &DIGITS[..length])?;
    let same = list.as_slice() == &DIGITS[..length];
    list.push(b'!')?;
    list.drop_front(length);
    let left = list.as_slice() == b"!".as_slice();
    list.extend(DIGITS)?;
    list.cut_to(3);
    Ok(same && left && list.as_slice() == b"!01".as_slice())
}

#[test]
fn short_and_long_lists_are_kept(rt: HostRuntime) -> Result<(), Fail> {
    assert!(rt; is_kept(rt.alloc(), 15)?);
    assert!(rt; is_kept(rt.alloc(), 16)?);
    assert!(rt; is_kept(rt.alloc(), 17)?);
    let of_vector = Bytes::of_vec(vec![in rt.alloc(); 1u8, 2]?);
    assert_eq!(rt; of_vector.as_slice(), b"\x01\x02".as_slice());
    Ok(())
}

#[test]
fn boxes_keep_their_values(rt: HostRuntime) -> Result<(), Fail> {
    let boxed = Boxed::new(rt.alloc(), 7u32)?;
    assert_eq!(rt; *boxed.inner, 7);
    assert_eq!(rt; boxed.into_inner(), 7);
    Ok(())
}
