// What a head says of the body behind it.
ghost use Rattle.std.specs.Prelude.{◌≡◌, ◌≤◌, List, ℕ, All, length, map};
ghost use Rattle.std.specs.List.{list_all, list_any};
ghost use Rattle.std.specs.Char.{is_ascii_digit};
ghost use Rattle.std.specs.Str.{str_eq_ignore_ascii_case};
ghost use Rattle.dm_base.specs.Fields.{is_numeral};
ghost use Rattle.httparse.specs.Spans.{IsHeaderWithin, header_bytes};
ghost use Rattle.dm_heads.specs.Extents as Spec;

use dm_base::num;
use httparse::spans::HeaderSpan;

/// How long a body is, as the fields of its head say it.
#[derive(Clone, Copy, Debug, PartialEq, Eq)]
pub enum BodyExtent {
    /// They say it in a way that isn't read.
    Faulty,
    /// More than 65,536 bytes.
    TooLong,
    Sized(u32),
    /// They don't say it.
    Unsized,
}

/// What a whole head makes of its message.
#[derive(Clone, Copy, Debug, PartialEq, Eq)]
pub enum HeadVerdict {
    BadHead,
    /// A status other than 200.
    NotOk(u16),
    TooLong,
    /// The body has so many bytes, at most 65,536.
    Sized(u32),
    /// The body ends with the stream.
    Unsized,
}

fn all_digits(text: &[u8]) -> bool
    ensures { result ≡ list_all is_ascii_digit text.now }
{
    text.iter().all(|b| b.is_ascii_digit())
}

fn is_numeral(text: &[u8]) -> bool
    ensures { result ≡ is_numeral text.now }
{
    !text.is_empty() && all_digits(text) && (text.len() == 1 || text[0] != b'0')
}

// What the value of a Content-Length says.
fn extent_stated(text: &[u8]) -> BodyExtent
    ensures { result ≡ Spec.extent_stated text.now }
{
    if !is_numeral(text) || text.len() > 20 {
        return BodyExtent::Faulty;
    }
    match num(text) {
        Some(count) if count <= 65_536 => BodyExtent::Sized(count as u32),
        _ => BodyExtent::TooLong,
    }
}

// Names are compared without regard to case.
fn is_same_name(name: &[u8], wanted: &[u8]) -> bool
    ensures { result ≡ str_eq_ignore_ascii_case name.now wanted.now }
{
    name.eq_ignore_ascii_case(wanted)
}

// Whether a field of this name is there.
fn has_field(bytes: &[u8], headers: &[HeaderSpan], name: &[u8]) -> bool
    requires { All (IsHeaderWithin (length bytes.now)) headers.now }
    ensures { result ≡ list_any (Spec.is_named name.now) (map (header_bytes bytes.now) headers.now) }
{
    match headers {
        [] => false,
        [first, rest @ ..] => {
            is_same_name(first.name.of(bytes), name) || has_field(bytes, rest, name)
        }
    }
}

// What the field of a name says, which may stand once.
fn extent_by(bytes: &[u8], headers: &[HeaderSpan], name: &[u8]) -> BodyExtent
    requires { All (IsHeaderWithin (length bytes.now)) headers.now }
    ensures { result ≡ Spec.extent_by name.now (map (header_bytes bytes.now) headers.now) }
{
    match headers {
        [] => BodyExtent::Unsized,
        [first, rest @ ..] => {
            if !is_same_name(first.name.of(bytes), name) {
                extent_by(bytes, rest, name)
            } else if has_field(bytes, rest, name) {
                BodyExtent::Faulty
            } else {
                extent_stated(first.value.of(bytes))
            }
        }
    }
}

#[tactic(auto, unfolding(crate::specs::Extents::body_extent))]
fn body_extent(bytes: &[u8], headers: &[HeaderSpan]) -> BodyExtent
    requires { All (IsHeaderWithin (length bytes.now)) headers.now }
    ensures { result ≡ Spec.body_extent (map (header_bytes bytes.now) headers.now) }
{
    if has_field(bytes, headers, b"transfer-encoding") {
        BodyExtent::Faulty
    } else {
        extent_by(bytes, headers, b"content-length")
    }
}

fn extent_verdict(extent: BodyExtent) -> HeadVerdict
    ensures { result ≡ Spec.extent_verdict extent }
{
    match extent {
        BodyExtent::Faulty => HeadVerdict::BadHead,
        BodyExtent::TooLong => HeadVerdict::TooLong,
        BodyExtent::Sized(count) => HeadVerdict::Sized(count),
        BodyExtent::Unsized => HeadVerdict::Unsized,
    }
}

/// What the head of a reply makes of it: one that isn't read goes before its status, and this before the length.
pub fn reply_verdict(code: u16, bytes: &[u8], headers: &[HeaderSpan]) -> HeadVerdict
    requires { All (IsHeaderWithin (length bytes.now)) headers.now }
    ensures { result ≡ Spec.reply_verdict code (map (header_bytes bytes.now) headers.now) }
{
    match body_extent(bytes, headers) {
        BodyExtent::Faulty => HeadVerdict::BadHead,
        _ if code != 200 => HeadVerdict::NotOk(code),
        extent => extent_verdict(extent),
    }
}

/// What the head of a request makes of it: its method is POST, and it says its length.
pub fn request_verdict(method: &[u8], bytes: &[u8], headers: &[HeaderSpan]) -> HeadVerdict
    requires { All (IsHeaderWithin (length bytes.now)) headers.now }
    ensures { result ≡ Spec.request_verdict method.now (map (header_bytes bytes.now) headers.now) }
{
    if method != b"POST".as_slice() {
        return HeadVerdict::BadHead;
    }
    match body_extent(bytes, headers) {
        BodyExtent::Unsized => HeadVerdict::BadHead,
        extent => extent_verdict(extent),
    }
}
