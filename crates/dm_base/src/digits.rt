// Hexadecimal digits, sixteen bytes at a time.
ghost use Rattle.std.specs.Prelude.{◌≡◌, ◌<◌, ◌≤◌, ◌++◌, ◌/◌, ◌%◌, map, length, slice_index, take, IfOk, OnOk, OnErr};
ghost use Rattle.std.specs.Prelude.{nat_le, option_map, unwrap_or};
ghost use Rattle.std.specs.List.{list_all};
ghost use Rattle.std.specs.Result.{result_ok};
ghost use Rattle.hex.specs.Hex.{encode_lower, lower_digits, decode_of, hex_digit_value};

use crate::bytes::{Bytes, Memory};
use std::alloc::Global;
use std::simd::prelude::*;

const DIGITS: [u8; 16] = [
    48, 49, 50, 51, 52, 53, 54, 55, 56, 57, 97, 98, 99, 100, 101, 102,
];

// The digits of the high four bits.
#[inline(always)]
fn high_digits(bytes: u8x16) -> u8x16
    requires { length bytes ≡ 16 }
    ensures { result ≡ map (λ b. slice_index lower_digits (b / 16)) bytes }
{
    u8x16::from_array(DIGITS).swizzle_dyn(bytes >> u8x16::splat(4))
}

// The digits of the low four bits.
#[inline(always)]
fn low_digits(bytes: u8x16) -> u8x16
    requires { length bytes ≡ 16 }
    ensures { result ≡ map (λ b. slice_index lower_digits (b % 16)) bytes }
{
    u8x16::from_array(DIGITS).swizzle_dyn(bytes & u8x16::splat(15))
}

#[inline(always)]
fn digits_of(bytes: u8x16) -> u8x32
    requires { length bytes ≡ 16 }
    ensures { result ≡ encode_lower bytes }
{
    let high = high_digits(bytes);
    let low = low_digits(bytes);
    high.shuffle(
        low,
        [
            0, 16, 1, 17, 2, 18, 3, 19, 4, 20, 5, 21, 6, 22, 7, 23, 8, 24, 9, 25, 10, 26, 11, 27,
            12, 28, 13, 29, 14, 30, 15, 31,
        ],
    )
}

// The digits of the last bytes: those of sixteen are made, with zeros behind, and cut.
fn put_last(out: &mut Bytes, bytes: &[u8]) -> Result<(), Memory>
    requires { length bytes.now < 16 }
    ensures ok { OnOk result (out.new ≡ out.old ++ encode_lower bytes.now) }
    ensures err { OnErr result (out.new ≡ out.old) }
{
    let mut block = [0u8; 16];
    block[..bytes.len()].copy_from_slice(bytes);
    let digits = digits_of(u8x16::from_array(block)).to_array();
    out.extend(&digits[..2 * bytes.len()])
}

// Two digits for each byte, into room that is taken once.
pub(crate) fn put_digits(out: &mut Bytes, bytes: &[u8]) -> Result<(), Memory>
    ensures ok { OnOk result (out.new ≡ out.old ++ encode_lower bytes.now) }
    ensures front { take (length out.old) out.new ≡ out.old }
{
    out.reserve(bytes.len().saturating_mul(2))?;
    let mut rest = bytes;
    while rest.len() >= 16 {
        let (block, behind) = rest.split_at(16);
        out.extend(&digits_of(u8x16::from_slice(block)).to_array())?;
        rest = behind;
    }
    put_last(out, rest)
}

// The values of sixteen digits of either case, and 255 in place of another byte.
#[inline(always)]
fn values_of(text: u8x16) -> u8x16
    requires { length text ≡ 16 }
    ensures { result ≡ map (λ c. unwrap_or (hex_digit_value c) 255) text }
{
    let decimal = text - u8x16::splat(48);
    let letter = (text | u8x16::splat(32)) - u8x16::splat(97);
    let by_letter = letter
        .simd_le(u8x16::splat(5))
        .select(letter + u8x16::splat(10), u8x16::splat(255));
    decimal.simd_le(u8x16::splat(9)).select(decimal, by_letter)
}

#[inline(always)]
fn are_values(values: u8x16) -> bool
    requires { length values ≡ 16 }
    ensures { result ≡ list_all (λ v. nat_le v 15) values }
{
    values.simd_le(u8x16::splat(15)).all()
}

// The bytes of the digits in two halves. None comes exactly where there is another byte among these.
#[inline(always)]
fn bytes_of(first: u8x16, second: u8x16) -> Option<[u8; 16]>
    requires first { length first ≡ 16 }
    requires second { length second ≡ 16 }
    ensures { result ≡ result_ok (decode_of (first ++ second)) }
{
    let first_values = values_of(first);
    let second_values = values_of(second);
    let first_are = are_values(first_values);
    if !first_are {
        return None;
    }
    let second_are = are_values(second_values);
    if !second_are {
        return None;
    }
    let high: u8x16 = first_values.shuffle(
        second_values,
        [0, 2, 4, 6, 8, 10, 12, 14, 16, 18, 20, 22, 24, 26, 28, 30],
    );
    let low: u8x16 = first_values.shuffle(
        second_values,
        [1, 3, 5, 7, 9, 11, 13, 15, 17, 19, 21, 23, 25, 27, 29, 31],
    );
    let bytes = (high << u8x16::splat(4)) | low;
    Some(bytes.to_array())
}

// The bytes of 32 digits.
#[inline(always)]
pub(crate) fn block_bytes(text: &[u8]) -> Option<[u8; 16]>
    requires { length text.now ≡ 32 }
    ensures { result ≡ result_ok (decode_of text.now) }
{
    bytes_of(u8x16::from_slice(text), u8x16::from_slice(&text[16..]))
}

// The bytes of at most 32 digits, with zeros behind them.
fn few_bytes(text: &[u8]) -> Option<[u8; 16]>
    requires few { length text.now ≤ 32 }
    requires even { length text.now % 2 ≡ 0 }
    ensures { option_map (λ bytes. take (length text.now / 2) bytes) result ≡ result_ok (decode_of text.now) }
{
    let mut block = [b'0'; 32];
    block[..text.len()].copy_from_slice(text);
    block_bytes(&block)
}

// The bytes of at most 32 digits, which stand in the list itself.
pub(crate) fn short_bytes(alloc: Global, text: &[u8]) -> Result<Option<Bytes>, Memory>
    requires few { length text.now ≤ 32 }
    requires even { length text.now % 2 ≡ 0 }
    ensures { IfOk result (λ bytes. bytes ≡ result_ok (decode_of text.now)) }
{
    match few_bytes(text) {
        Some(bytes) => Ok(Some(Bytes::of_slice(alloc, &bytes[..text.len() / 2])?)),
        None => Ok(None),
    }
}

// The bytes of digits, block by block, into room that is taken once.
pub(crate) fn many_bytes(alloc: Global, text: &[u8]) -> Result<Option<Bytes>, Memory>
    requires { length text.now % 2 ≡ 0 }
    ensures { IfOk result (λ bytes. bytes ≡ result_ok (decode_of text.now)) }
{
    let mut out = Vec::with_capacity(alloc, text.len() / 2)?;
    let mut rest = text;
    while rest.len() >= 32 {
        let (block, behind) = rest.split_at(32);
        match block_bytes(block) {
            Some(bytes) => out.extend_from_slice(&bytes)?,
            None => return Ok(None),
        }
        rest = behind;
    }
    match few_bytes(rest) {
        Some(bytes) => {
            out.extend_from_slice(&bytes[..rest.len() / 2])?;
            Ok(Some(Bytes::of_vec(out)))
        }
        None => Ok(None),
    }
}
