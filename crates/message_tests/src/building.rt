// A builder that is handed tokens one by one.
ghost use Rattle.std.specs.Prelude.{◌<◌, length};

use crate::pieces::Piece::{self, Bare, End, Leaf, Opaque, Open, Text};
use crate::pieces::{HEAD, REST, SPELLING};
use std::alloc::Global;
use std::test::Fail;
use syncml_codec::encode;
use syncml_grammar::Builder;
use wbxml_tables::Element::{ECred, ESyncML};
use wbxml_tokens::{Reason, Stop, Writer};

// A leaf at once.
fn give(builder: &mut Builder, piece: Piece) -> Result<(), Stop> {
    match piece {
        Open(element) => builder.tag(element, true),
        Bare(element) => builder.tag(element, false),
        End => builder.end(),
        Text(text) => builder.text(text),
        Opaque(bytes) if bytes.len() < 100 => builder.opaque(bytes),
        Opaque(_) => Err(Stop::Memory),
        Leaf(element, text) => builder.leaf(element, text),
    }
}

fn give_all(builder: &mut Builder, pieces: &[Piece]) -> Result<(), Stop> {
    for piece in pieces {
        give(builder, *piece)?;
    }
    Ok(())
}

fn is_taken(builder: &mut Builder) -> bool {
    give_all(builder, &HEAD).is_ok() && give_all(builder, &REST).is_ok()
}

// Whether the message of all of them is spelled as it must be.
fn is_built(alloc: Global) -> bool {
    let mut builder = Builder::new(alloc);
    let is_taken = is_taken(&mut builder);
    match builder.finish() {
        Some(message) => {
            let bytes = encode(alloc, &message);
            drop(message);
            is_taken && bytes.is_ok_and(|bytes| bytes.as_slice() == SPELLING)
        }
        None => false,
    }
}

fn refuses_all(builder: &mut Builder) -> bool {
    let stop = Err(Stop::Refused(Reason::Leftout));
    builder.tag(ECred, true) == stop
        && builder.tag(ESyncML, true) == stop
        && builder.text(b"x") == stop
        && builder.leaf(ESyncML, b"1") == stop
        && builder.opaque(b"x") == stop
        && builder.end() == stop
}

// After a refusal no token is taken, and no message is there.
fn stays_refused(alloc: Global) -> bool {
    let mut builder = Builder::new(alloc);
    let refuses = refuses_all(&mut builder);
    let is_none = builder.finish().is_none();
    refuses && is_none
}

#[test]
fn tokens_are_built(rt: HostRuntime) -> Result<(), Fail> {
    assert!(rt; is_built(rt.alloc()));
    assert!(rt; stays_refused(rt.alloc()));
    Ok(())
}
