// The tree text, put to a sink a piece at a time.
ghost use Rattle.std.specs.Prelude.{◌≡◌, ◌<◌, ◌≤◌, ◌++◌, false, length, OnOk};
ghost use Rattle.dm_base.specs.Fields.{hex_text};
ghost use Rattle.dm_base.specs.Lines.{line_feed};
ghost use Rattle.dm_base.specs.Outside.{PutsAll, PutCounts};
ghost use Rattle.dm_tree.specs.Rows.{nodes, path_of, IsLive};
ghost use Rattle.dm_tree.specs.Views.{shown};
ghost use Rattle.dm_start.specs.TreeText as Spec;
ghost use Rattle.dm_start.specs.TreeText.{PutsOn};

use crate::texts::put_front;
use dm_base::{Bytes, Fault, Sink, hex_into, put_all};
use dm_tree::{NodeId, Tree, View};
use std::alloc::Global;

// So much of the text is put at a time: enough that a put costs little beside what is put.
const PIECE: usize = 65_536;

// The digits of so many bytes of a value are a piece.
const CHUNK: usize = 32_768;

// Puts the text where it is a piece, and empties it.
fn put_piece<K: Sink>(out: &mut K, text: &mut Bytes) -> Result<(), Fault>
    ensures bytes { PutsOn (K.got out.old) (K.got out.new) text.old text.new result }
    ensures few { OnOk result (length text.new < 65536) }
    ensures waits { OnOk result (length text.old < 65536 → text.new ≡ text.old) }
    ensures count { PutCounts (K.faults out.old) (K.faults out.new) result }
    ensures source { K.as_source out.new ≡ K.as_source out.old }
{
    if text.len() < PIECE {
        return Ok(());
    }
    match put_all(out, text.as_slice()) {
        Ok(()) => {}
        Err(fault) => return Err(fault),
    }
    text.cut_to(0);
    Ok(())
}

// Puts digits behind the text that waits.
fn put_digits<K: Sink>(out: &mut K, text: &mut Bytes, bytes: &[u8]) -> Result<(), Fault>
    requires chunk { length bytes.now ≤ 32768 }
    ensures bytes { PutsOn (K.got out.old) (K.got out.new) (text.old ++ hex_text bytes.now) text.new result }
    ensures few { OnOk result (length text.new < 65536) }
    ensures count { PutCounts (K.faults out.old) (K.faults out.new) result }
    ensures source { K.as_source out.new ≡ K.as_source out.old }
{
    match hex_into(text, bytes) {
        Ok(()) => put_piece(out, text),
        Err(_) => Err(Fault::Memory),
    }
}

// Puts the digits of a value behind the text that waits, a piece of them at a time.
fn put_value<K: Sink>(out: &mut K, text: &mut Bytes, bytes: &[u8]) -> Result<(), Fault>
    ensures bytes { PutsOn (K.got out.old) (K.got out.new) (text.old ++ hex_text bytes.now) text.new result }
    ensures few { OnOk result (length text.new < 65536) }
    ensures count { PutCounts (K.faults out.old) (K.faults out.new) result }
    ensures source { K.as_source out.new ≡ K.as_source out.old }
{
    let (first, mut rest) = bytes.split_at(bytes.len().min(CHUNK));
    match put_digits(out, text, first) {
        Ok(()) => {}
        Err(fault) => return Err(fault),
    }
    while !rest.is_empty() {
        let (chunk, behind) = rest.split_at(rest.len().min(CHUNK));
        match put_digits(out, text, chunk) {
            Ok(()) => {}
            Err(fault) => return Err(fault),
        }
        rest = behind;
    }
    Ok(())
}

// Puts a leaf's value, if it is one, behind a space and the text that waits.
fn put_bytes<K: Sink>(out: &mut K, text: &mut Bytes, view: View) -> Result<(), Fault>
    ensures bytes { PutsOn (K.got out.old) (K.got out.new)
        (text.old ++ Spec.bytes_text (shown view.entry)) text.new result }
    ensures few { OnOk result (view.entry.interior ≡ false → length text.new < 65536) }
    ensures count { PutCounts (K.faults out.old) (K.faults out.new) result }
    ensures source { K.as_source out.new ≡ K.as_source out.old }
{
    if view.interior {
        return Ok(());
    }
    match text.push(b' ') {
        Ok(()) => put_value(out, text, view.value.bytes.as_slice()),
        Err(_) => Err(Fault::Memory),
    }
}

// Puts what a line has behind its front: a leaf's value, and the line feed.
fn put_behind<K: Sink>(out: &mut K, text: &mut Bytes, view: View) -> Result<(), Fault>
    ensures bytes { PutsOn (K.got out.old) (K.got out.new)
        (text.old ++ (Spec.bytes_text (shown view.entry) ++ line_feed)) text.new result }
    ensures few { OnOk result (length text.new < 65536) }
    ensures count { PutCounts (K.faults out.old) (K.faults out.new) result }
    ensures source { K.as_source out.new ≡ K.as_source out.old }
{
    match put_bytes(out, text, view) {
        Ok(()) => {}
        Err(fault) => return Err(fault),
    }
    match text.push(b'\n') {
        Ok(()) => put_piece(out, text),
        Err(_) => Err(Fault::Memory),
    }
}

// Puts the line of a node behind the text that waits.
fn put_line<K: Sink>(
    alloc: Global,
    out: &mut K,
    text: &mut Bytes,
    tree: &Tree,
    version: u8,
    id: NodeId,
) -> Result<(), Fault>
    requires { IsLive tree.now.rows id }
    ensures bytes { PutsOn (K.got out.old) (K.got out.new)
        (text.old ++ Spec.line_at version (nodes tree.now.rows) (path_of tree.now.rows id)) text.new result }
    ensures few { OnOk result (length text.new < 65536) }
    ensures count { PutCounts (K.faults out.old) (K.faults out.new) result }
    ensures source { K.as_source out.new ≡ K.as_source out.old }
{
    let view = tree.view(id);
    match put_front(alloc, text, tree, version, id) {
        Ok(()) => put_behind(out, text, view),
        Err(_) => Err(Fault::Memory),
    }
}

/// Puts the tree text, a piece at a time. Beside the tree it holds at most two pieces of 64 KB and one line without a
/// leaf's value. After an error a proper prefix of the text was put: `Failed` where the sink failed, and `Memory` at
/// any place.
pub fn put_tree<K: Sink>(alloc: Global, out: &mut K, tree: &Tree, version: u8) -> Result<(), Fault>
    ensures bytes { PutsAll (K.got out.old) (K.got out.new) result (Spec.tree_text version (nodes tree.now.rows)) }
    ensures count { PutCounts (K.faults out.old) (K.faults out.new) result }
    ensures source { K.as_source out.new ≡ K.as_source out.old }
{
    let root = tree.root();
    // Its contract says that the root is there.
    let _ = tree.view(root);
    let mut text = Bytes::new(alloc);
    let mut at = Some(root);
    while let Some(id) = at {
        match put_line(alloc, out, &mut text, tree, version, id) {
            Ok(()) => {}
            Err(fault) => return Err(fault),
        }
        at = tree.next_below(root, id, false);
    }
    put_all(out, text.as_slice())
}
