// The fields of a line, which stand between single spaces.
ghost use Rattle.std.specs.Prelude.{◌≡◌, ◌++◌, ◌∷◌, [], ◌<◌, ◌≤◌, ◌+◌, List, ℕ, length, take, drop, IfOk, OnOk, OnErr};
ghost use Rattle.std.specs.Prelude.{Option, option_map, not};
ghost use Rattle.std.specs.List.{list_all};
ghost use Rattle.std.specs.Char.{is_ascii_digit};
ghost use Rattle.hex.specs.Hex.{encode_lower, is_hex_digit};
ghost use Rattle.dm_base.specs.Fields.{field_of, parts, is_form, is_visible, is_word, is_short, is_acl_sign, is_id};
ghost use Rattle.dm_base.specs.Fields.{is_hex, is_numeral, num_of, challenge_of, hex_of, hex_text};

use crate::bytes::{Bytes, Memory};
use crate::digits::{block_bytes, many_bytes, put_digits, short_bytes};
use crate::values::Nonce;
use std::alloc::Global;

/// The forms that a field may have.
#[derive(Clone, Copy, Debug, PartialEq, Eq)]
pub enum FieldForm {
    /// 1 to 255 bytes of 21 to 7E.
    Word,
    /// A server's name: a `Short` without `&`, `+`, `=` and `*` that isn't `-`.
    Id,
    /// A `Word` of at most 64 bytes.
    Short,
    /// A `Short`, or `-` for none.
    Opt,
    /// An even number of hexadecimal digits of either case, or `-` for no byte.
    Hex,
    /// A `Hex` that stands for at most 64 bytes.
    Key,
    /// 32 hexadecimal digits.
    Nonce,
    /// Decimal digits without sign or leading zero, whose number is at most 18,446,744,073,709,551,615.
    Num,
}

fn all_visible(text: &[u8]) -> bool
    ensures { result ≡ list_all is_visible text.now }
{
    text.iter().all(|b| b'!' <= *b && *b <= b'~')
}

fn is_word(text: &[u8]) -> bool
    ensures { result ≡ is_word text.now }
{
    !text.is_empty() && text.len() <= 255 && all_visible(text)
}

fn is_short(text: &[u8]) -> bool
    ensures { result ≡ is_short text.now }
{
    is_word(text) && text.len() <= 64
}

// Whether a byte has a meaning in access lists.
fn is_acl_sign(b: u8) -> bool
    ensures { result ≡ is_acl_sign b }
{
    b == b'&' || b == b'+' || b == b'=' || b == b'*'
}

fn has_no_acl_sign(text: &[u8]) -> bool
    ensures { result ≡ list_all (λ b. not (is_acl_sign b)) text.now }
{
    text.iter().all(|b| !is_acl_sign(*b))
}

fn is_id(text: &[u8]) -> bool
    ensures { result ≡ is_id text.now }
{
    is_short(text) && has_no_acl_sign(text) && text != b"-".as_slice()
}

fn is_hex_digit(b: u8) -> bool
    ensures { result ≡ is_hex_digit b }
{
    b.is_ascii_hexdigit()
}

fn all_hex(text: &[u8]) -> bool
    ensures { result ≡ list_all is_hex_digit text.now }
{
    text.iter().all(|b| is_hex_digit(*b))
}

fn is_hex(text: &[u8]) -> bool
    ensures { result ≡ is_hex text.now }
{
    text == b"-".as_slice() || (!text.is_empty() && text.len() % 2 == 0 && all_hex(text))
}

fn all_digits(text: &[u8]) -> bool
    ensures { result ≡ list_all is_ascii_digit text.now }
{
    text.iter().all(|b| b.is_ascii_digit())
}

fn is_numeral(text: &[u8]) -> bool
    ensures { result ≡ is_numeral text.now }
{
    !text.is_empty() && all_digits(text) && (text.len() == 1 || text[0] != b'0')
}

/// The `n`-th part of the line, from 0, between single spaces. None comes exactly where there are fewer parts.
pub fn field(line: &[u8], n: usize) -> Option<&[u8]>
    ensures { option_map (λ part. part.now) result ≡ field_of line.now n }
{
    line.split(|b| *b == b' ').nth(n)
}

/// Whether the text is of a form.
pub fn is_field(form: FieldForm, text: &[u8]) -> bool
    ensures { result ≡ is_form form text.now }
{
    match form {
        FieldForm::Word => is_word(text),
        FieldForm::Id => is_id(text),
        FieldForm::Short => is_short(text),
        FieldForm::Opt => is_short(text),
        FieldForm::Hex => is_hex(text),
        FieldForm::Key => is_hex(text) && text.len() <= 128,
        FieldForm::Nonce => text.len() == 32 && all_hex(text),
        FieldForm::Num => num(text).is_some(),
    }
}

/// The number of a `Num`. None comes exactly where the text isn't one.
pub fn num(text: &[u8]) -> Option<u64>
    ensures { result ≡ num_of text.now }
{
    if !is_numeral(text) {
        return None;
    }
    match str::from_utf8(text) {
        Ok(digits) => digits.parse::<u64>().ok(),
        Err(_) => None,
    }
}

/// The bytes of a `Nonce`. None comes exactly where the text isn't one.
pub fn nonce(text: &[u8]) -> Option<Nonce>
    ensures { result ≡ challenge_of text.now }
{
    if text.len() != 32 {
        return None;
    }
    match block_bytes(text) {
        Some(bytes) => Some(Nonce { bytes }),
        None => None,
    }
}

/// The bytes of a `Hex`. None comes exactly where the text isn't one.
pub fn hex_bytes(alloc: Global, text: &[u8]) -> Result<Option<Bytes>, Memory>
    ensures { IfOk result (λ bytes. bytes ≡ hex_of text.now) }
{
    if text == b"-".as_slice() {
        return Ok(Some(Bytes::new(alloc)));
    }
    if text.is_empty() {
        return Ok(None);
    }
    if text.len() % 2 == 1 {
        return Ok(None);
    }
    if text.len() <= 32 {
        short_bytes(alloc, text)
    } else {
        many_bytes(alloc, text)
    }
}

/// Appends the lower-case `Hex` of the bytes: two digits a byte, or `-` for no byte. After `Memory` the list is as
/// before.
pub fn hex_into(out: &mut Bytes, bytes: &[u8]) -> Result<(), Memory>
    ensures ok { OnOk result (out.new ≡ out.old ++ hex_text bytes.now) }
    ensures err { OnErr result (out.new ≡ out.old) }
{
    if bytes.is_empty() {
        return out.extend(b"-");
    }
    let before = out.len();
    let put = put_digits(out, bytes);
    if put.is_err() {
        out.cut_to(before);
    }
    put
}
