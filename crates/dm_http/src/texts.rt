// The heads that are written: each line ended by CR LF.
ghost use Rattle.std.specs.Prelude.{◌≡◌, ◌++◌, OnOk, IfOk};
ghost use Rattle.dm_http.specs.Replies.{message_reply};
ghost use Rattle.dm_http.specs.Texts as Spec;

use dm_base::{Bytes, Memory};
use dm_decimals::put_decimal;
use std::alloc::Global;

const MEDIA_TYPE: &[u8] = b"application/vnd.syncml.dm+wbxml";

// Four texts, one behind the other.
fn put_four(text: &mut Bytes, a: &[u8], b: &[u8], c: &[u8], d: &[u8]) -> Result<(), Memory>
    ensures ok { OnOk result (text.new ≡ text.old ++ (a.now ++ (b.now ++ (c.now ++ d.now)))) }
{
    text.extend(a)?;
    text.extend(b)?;
    text.extend(c)?;
    text.extend(d)
}

// A line of a head: a name and its value.
fn put_line(text: &mut Bytes, name: &[u8], value: &[u8]) -> Result<(), Memory>
    ensures ok { OnOk result (text.new ≡ text.old ++ Spec.head_line name.now value.now) }
{
    put_four(text, name, b": ", value, b"\r\n")
}

fn put_length(text: &mut Bytes, length: usize) -> Result<(), Memory>
    ensures ok { OnOk result (text.new ≡ text.old ++ Spec.length_line length) }
{
    text.extend(b"Content-Length: ")?;
    put_decimal(text, length as u64)?;
    text.extend(b"\r\n")
}

// The line that closes the connection behind this message, and the empty line.
fn put_close(text: &mut Bytes) -> Result<(), Memory>
    ensures ok { OnOk result (text.new ≡ text.old ++ Spec.last_lines) }
{
    put_line(text, b"Connection", b"close")?;
    text.extend(b"\r\n")
}

// The first line, and whom it is for.
fn put_address(text: &mut Bytes, host: &[u8], path: &[u8]) -> Result<(), Memory>
    ensures ok { OnOk result (text.new ≡ text.old ++ (Spec.request_line path.now ++ Spec.host_line host.now)) }
{
    put_four(text, b"POST ", path, b" HTTP/1.1", b"\r\n")?;
    put_line(text, b"Host", host)
}

/// A request with its message, to a path on a host. Neither is looked at.
#[tactic(auto, unfolding(crate::specs::Texts::request_text))]
pub fn request_text(alloc: Global, host: &[u8], path: &[u8], body: &[u8]) -> Result<Bytes, Memory>
    ensures { IfOk result (λ text. text ≡ Spec.request_text host.now path.now body.now) }
{
    let mut text = Bytes::new(alloc);
    put_address(&mut text, host, path)?;
    put_line(&mut text, b"Content-Type", MEDIA_TYPE)?;
    put_line(&mut text, b"Accept", MEDIA_TYPE)?;
    put_length(&mut text, body.len())?;
    put_close(&mut text)?;
    text.extend(body)?;
    Ok(text)
}

/// The reply that brings a message.
#[tactic(auto, unfolding(crate::specs::Replies::message_reply))]
pub fn message_text(alloc: Global, message: &[u8]) -> Result<Bytes, Memory>
    ensures { IfOk result (λ text. text ≡ message_reply message.now) }
{
    let mut text = Bytes::new(alloc);
    text.extend(b"HTTP/1.1 200 OK\r\n")?;
    put_line(&mut text, b"Content-Type", MEDIA_TYPE)?;
    put_length(&mut text, message.len())?;
    put_close(&mut text)?;
    text.extend(message)?;
    Ok(text)
}
