// The spellings of the messages that are measured: one of many small commands, and one of a single large item.
use dm_base::{Bytes, Memory};
use dm_decimals::put_decimal;
use std::alloc::Global;
use syncml_types::put_value::put_number;
use wbxml_tables::Element;
use wbxml_tables::Element::{
    ECmdID, EData, EFinal, EFormat, EItem, ELocURI, EMeta, EMsgID, EReplace, ESessionID, ESource,
    ESyncBody, ESyncHdr, ESyncML, ETarget, EType, EVerDTD, EVerProto,
};
use wbxml_tokens::{TokenWriter, Writer};

// So many commands come to 59,948 bytes.
const COMMANDS: u32 = 913;

// How many bytes of Data the large item has.
const DATA: usize = 59_000;

fn put_place(w: &mut TokenWriter, element: Element, uri: &[u8]) -> Result<(), Memory> {
    w.tag(element, true)?;
    w.leaf(ELocURI, uri)?;
    w.end()
}

fn put_head(w: &mut TokenWriter) -> Result<(), Memory> {
    w.tag(ESyncML, true)?;
    w.tag(ESyncHdr, true)?;
    w.leaf(EVerDTD, b"1.2")?;
    w.leaf(EVerProto, b"DM/1.2")?;
    w.leaf(ESessionID, b"1")?;
    w.leaf(EMsgID, b"1")?;
    put_place(w, ETarget, b"d")?;
    put_place(w, ESource, b"b")?;
    w.end()?;
    w.tag(ESyncBody, true)
}

// Final, and the ends of the body and the message.
fn put_foot(w: &mut TokenWriter) -> Result<(), Memory> {
    w.tag(EFinal, false)?;
    w.end()?;
    w.end()
}

fn put_meta(w: &mut TokenWriter) -> Result<(), Memory> {
    w.tag(EMeta, true)?;
    w.leaf(EFormat, b"chr")?;
    w.leaf(EType, b"text/plain")?;
    w.end()
}

// A Replace up to its Item's place.
fn begin_replace(w: &mut TokenWriter, id: u32, uri: &[u8]) -> Result<(), Memory> {
    w.tag(EReplace, true)?;
    put_number(w, ECmdID, u64::from(id))?;
    w.tag(EItem, true)?;
    put_place(w, ETarget, uri)
}

fn end_replace(w: &mut TokenWriter) -> Result<(), Memory> {
    w.end()?;
    w.end()
}

fn put_small(w: &mut TokenWriter, at: u32, uri: &[u8]) -> Result<(), Memory> {
    begin_replace(w, at.saturating_add(1), uri)?;
    put_meta(w)?;
    put_number(w, EData, u64::from(at).saturating_mul(7919))?;
    end_replace(w)
}

fn small_uri(uri: &mut Bytes, at: u32) -> Result<(), Memory> {
    uri.extend(b"./B/g")?;
    put_decimal(uri, u64::from(at / 256))?;
    uri.extend(b"/n")?;
    put_decimal(uri, u64::from(at))
}

fn put_smalls(alloc: Global, w: &mut TokenWriter) -> Result<(), Memory> {
    put_head(w)?;
    for at in 0..COMMANDS {
        let mut uri = Bytes::new(alloc);
        small_uri(&mut uri, at)?;
        put_small(w, at, uri.as_slice())?;
    }
    put_foot(w)
}

fn put_large(w: &mut TokenWriter, value: &[u8]) -> Result<(), Memory> {
    put_head(w)?;
    begin_replace(w, 1, b"./A")?;
    w.leaf(EData, value)?;
    end_replace(w)?;
    put_foot(w)
}

/// A message of 913 Replaces with Meta and a few bytes of Data each.
pub fn small_commands(alloc: Global) -> Result<Bytes, Memory> {
    let mut w = TokenWriter::new(alloc)?;
    put_smalls(alloc, &mut w)?;
    Ok(w.finish())
}

/// A message of one Replace, whose item has 59,000 bytes of Data that are a text.
pub fn large_data(alloc: Global) -> Result<Bytes, Memory> {
    let mut w = TokenWriter::new(alloc)?;
    put_large(&mut w, &[b'a'; DATA])?;
    Ok(w.finish())
}
