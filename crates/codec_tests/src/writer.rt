// The canonical spelling of tokens, one by one.
use dm_base::Memory;
use std::test::Fail;
use wbxml_tables::Element;
use wbxml_tokens::{TokenWriter, Writer};

#[test]
fn writes_a_bare_root(rt: HostRuntime) -> Result<(), Fail> {
    let mut w = TokenWriter::new(rt.alloc())?;
    w.tag(Element::ESyncML, false)?;
    assert_eq!(rt;
        w.finish().as_slice(),
        [0x03, 0xa4, 0x01, 0x6a, 0x00, 0x2d].as_slice()
    );
    Ok(())
}

#[test]
fn writes_into_its_room(rt: HostRuntime) -> Result<(), Fail> {
    let mut w = TokenWriter::with_room(rt.alloc(), 6)?;
    w.tag(Element::ESyncML, false)?;
    assert_eq!(rt;
        w.finish().as_slice(),
        [0x03, 0xa4, 0x01, 0x6a, 0x00, 0x2d].as_slice()
    );
    Ok(())
}

fn put_item(w: &mut TokenWriter) -> Result<(), Memory> {
    w.tag(Element::EItem, true)?;
    w.tag(Element::EMeta, true)?;
    w.tag(Element::EFormat, true)?;
    w.text(b"bin")?;
    w.end()?;
    w.tag(Element::EType, false)?;
    w.end()?;
    w.tag(Element::EData, true)?;
    w.opaque(&[0x00, 0xff])?;
    w.end()?;
    w.end()
}

// The page is switched before Format and back before Data, and at no END.
#[test]
fn switches_pages(rt: HostRuntime) -> Result<(), Fail> {
    let mut w = TokenWriter::new(rt.alloc())?;
    put_item(&mut w)?;
    assert_eq!(rt;
        w.finish().as_slice(),
        b"\x03\xa4\x01\x6a\x00\x54\x5a\x00\x01\x47\x03bin\x00\x01\x13\x01\
            \x00\x00\x4f\xc3\x02\x00\xff\x01\x01"
            .as_slice()
    );
    Ok(())
}
