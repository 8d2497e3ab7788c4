// The tree text, put to a sink a piece at a time.
use crate::starts::start_of;
use dm_base::{Bytes, Fault, List, MemSink, Memory};
use dm_start::{put_tree, tree_text};
use dm_tree::Tree;
use std::alloc::Global;
use std::test::Fail;

const HEAD: &[u8] = b"dm-trace 2
device d1 Acme Box 1.2 en
limits 16384 4194304
clock 20240101T000000Z
account s1 - - - - -
";

// 5,000 bytes in hexadecimal.
const DIGITS: &[u8] = &[b'a'; 10_000];

// 26 leaves of so many bytes.
fn section(alloc: Global) -> Result<Bytes, Memory> {
    let mut text = Bytes::of_slice(alloc, HEAD)?;
    for name in b'a'..=b'z' {
        text.extend(b"leaf ./")?;
        text.push(name)?;
        text.extend(b" bin x ")?;
        text.extend(DIGITS)?;
        text.push(b'\n')?;
    }
    text.extend(b"begin")?;
    Ok(text)
}

// Whether the whole text is put, or a proper prefix of it where a call of the sink fails.
fn is_put(alloc: Global, tree: &Tree, fails: &[u64]) -> Result<bool, Memory> {
    let text = tree_text(alloc, tree, 2)?;
    let mut sink = MemSink::new(alloc, List::of_vec(Vec::from_slice(alloc, fails)?));
    let put = put_tree(alloc, &mut sink, tree, 2);
    if fails.is_empty() {
        return Ok(put == Ok(()) && sink.bytes() == text.as_slice());
    }
    Ok(
        put == Err(Fault::Failed)
            && !sink.bytes().is_empty()
            && sink.bytes().len() < text.len()
            && text.as_slice().starts_with(sink.bytes()),
    )
}

fn are_put(alloc: Global, tree: &Tree) -> Result<bool, Memory> {
    Ok(is_put(alloc, tree, &[])? && is_put(alloc, tree, &[2])?)
}

fn of_section(alloc: Global, text: &[u8]) -> Result<bool, Memory> {
    match start_of(alloc, text) {
        Some(start) => {
            let are_put = are_put(alloc, &start.tree);
            drop(start);
            are_put
        }
        None => Ok(false),
    }
}

#[test]
fn pieces_are_the_text_or_a_prefix_of_it(rt: HostRuntime) -> Result<(), Fail> {
    let text = section(rt.alloc())?;
    assert!(rt; of_section(rt.alloc(), text.as_slice())?);
    Ok(())
}
