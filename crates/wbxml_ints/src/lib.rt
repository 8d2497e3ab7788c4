//! Multibyte integers of WBXML: seven bits a byte, the most significant first.
#![tactic(auto)]

ghost use Rattle.std.specs.Prelude.{◌≡◌, ◌<◌, ◌≤◌, ◌+◌, ◌/◌, ◌%◌, List, ℕ, length};
ghost use Rattle.wbxml_ints.specs.Multibyte.{IsMultibyte, Finds, OneIsFound, integer_at, number_of_five, whole_number};
ghost use Rattle.wbxml_ints.specs.Multibyte.{shortest};

use std::marker::Model;

/// What stands at the front of some bytes.
#[derive(Clone, Copy, Debug, PartialEq, Eq)]
pub enum Mb {
    /// A number, and how many bytes spell it.
    Value { number: u32, used: usize },
    /// Fewer than five bytes are there, and all say that more follow.
    More,
    /// Five bytes say that more follow, or the number passes 4,294,967,295.
    TooBig,
}

/// The spelling of one integer, of one to five bytes.
#[derive(Drop)]
pub struct MbText {
    bytes: [u8; 5],
    len: usize,
}

impl Model for MbText {
    ghost use Rattle.std.specs.Prelude.{◌≤◌, List, ℕ, take};

    ghost Value = { List ℕ };

    ghost view = { λ text. take text.len text.bytes };

    ghost invariant = { λ text. text.len ≤ 5 };
}

impl MbText {
    /// The bytes, five at most.
    pub fn as_slice(&self) -> &[u8]
        ensures { result.now ≡ self.now }
    {
        &self.bytes[..self.len]
    }
}

// Seven bits of the number, above so many others, with the bit that says that more bytes follow.
fn digit(number: u32, place: u32) -> u8
    requires { 0 < place }
    ensures { result ≡ 128 + number / place % 128 }
{
    (128 + number / place % 128) as u8
}

// The spelling of a number of three bytes or more, whose last byte is given.
fn longer(number: u32, last: u8) -> MbText
    requires from { 0x4000 ≤ number }
    requires last { last ≡ number % 128 }
    ensures { result ≡ shortest number }
{
    let second = digit(number, 0x80);
    let third = digit(number, 0x4000);
    if number < 0x20_0000 {
        return MbText {
            bytes: [third, second, last, 0, 0],
            len: 3,
        };
    }
    let fourth = digit(number, 0x20_0000);
    if number < 0x1000_0000 {
        return MbText {
            bytes: [fourth, third, second, last, 0],
            len: 4,
        };
    }
    let fifth = digit(number, 0x1000_0000);
    MbText {
        bytes: [fifth, fourth, third, second, last],
        len: 5,
    }
}

fn spelling(number: u32) -> MbText
    ensures { result ≡ shortest number }
{
    let last = (number % 128) as u8;
    if number < 0x80 {
        return MbText {
            bytes: [last, 0, 0, 0, 0],
            len: 1,
        };
    }
    if number < 0x4000 {
        return MbText {
            bytes: [digit(number, 0x80), last, 0, 0, 0],
            len: 2,
        };
    }
    longer(number, last)
}

/// The shortest spelling of a number. It takes no memory.
#[tactic(auto, using(crate::proofs::Shortest::shortest_is_least))]
pub fn write_mb(number: u32) -> MbText
    ensures value { result ≡ shortest number }
    ensures spelled { IsMultibyte number result }
    ensures least { (other : List ℕ) → IsMultibyte number other → length result ≤ length other }
{
    spelling(number)
}

// The number of five digits, each without the bit that says that more follow.
fn number_of(digits: [u8; 5]) -> u64
    ensures { result ≡ number_of_five digits }
{
    let [a, b, c, d, e] = digits;
    let mut number = (a % 128) as u64;
    number = number * 128 + (b % 128) as u64;
    number = number * 128 + (c % 128) as u64;
    number = number * 128 + (d % 128) as u64;
    number * 128 + (e % 128) as u64
}

// A number whose last digit was found.
fn whole(digits: [u8; 5], used: usize) -> Mb
    ensures { result ≡ whole_number (number_of_five digits) used }
{
    let number = number_of(digits);
    if number < 1 << 32 {
        Mb::Value {
            number: number as u32,
            used,
        }
    } else {
        Mb::TooBig
    }
}

// What stands at the front of some bytes.
fn found(bytes: &[u8]) -> Mb
    ensures { Finds bytes.now result }
{
    match bytes {
        [e, ..] if *e < 128 => whole([0, 0, 0, 0, *e], 1),
        [d, e, ..] if *e < 128 => whole([0, 0, 0, *d, *e], 2),
        [c, d, e, ..] if *e < 128 => whole([0, 0, *c, *d, *e], 3),
        [b, c, d, e, ..] if *e < 128 => whole([0, *b, *c, *d, *e], 4),
        [a, b, c, d, e, ..] if *e < 128 => whole([*a, *b, *c, *d, *e], 5),
        [_, _, _, _, _, ..] => Mb::TooBig,
        _ => Mb::More,
    }
}

/// The integer at the front of some bytes (WBXML 1.3, section 5.1), of five bytes at most; more bytes may follow it,
/// and leading zeros are accepted. It takes no memory.
#[tactic(auto, using(crate::proofs::Functions::found_is_at))]
pub fn read_mb(bytes: &[u8]) -> Mb
    ensures found { Finds bytes.now result }
    ensures function { result ≡ integer_at bytes.now }
{
    found(bytes)
}

/// One thing at most stands at the front of bytes, so `read_mb` answers `Value`, `More` and `TooBig` exactly where each
/// stands there.
#[tactic(auto, using(crate::proofs::Fronts::one_is_found))]
pub fn one_is_found()
    ensures { OneIsFound }
{}
