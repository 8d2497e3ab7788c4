//! Numbers as texts of decimal digits, which are read as these numbers.
#![tactic(auto)]

ghost use Rattle.std.specs.Prelude.{◌≡◌, ◌≤◌, ◌++◌, length, IfOk, OnOk, OnErr};
ghost use Rattle.std.specs.Fmt.{decimal};

pub mod laws;

use dm_base::{Bytes, Memory};
use itoa::Buffer;
use std::alloc::Global;

/// Adds the decimal digits of a number. After `Memory` the list is as before.
pub fn put_decimal(out: &mut Bytes, number: u64) -> Result<(), Memory>
    ensures ok { OnOk result (out.new ≡ out.old ++ decimal number) }
    ensures err { OnErr result (out.new ≡ out.old) }
{
    let mut digits = Buffer::new();
    out.extend(digits.format(number).as_bytes())
}

/// A list of the decimal digits of a number.
pub fn decimal_text(alloc: Global, number: u64) -> Result<Bytes, Memory>
    ensures { IfOk result (λ text. text ≡ decimal number) }
{
    let mut digits = Buffer::new();
    Bytes::of_slice(alloc, digits.format(number).as_bytes())
}

/// How many decimal digits a number has.
pub fn decimal_length(number: u64) -> u64
    ensures value { result ≡ length (decimal number) }
    ensures low { result ≤ 40 }
{
    let mut digits = Buffer::new();
    digits.format(number).len() as u64
}
