// The client before the first message.
ghost use Rattle.std.specs.Prelude.{◌≡◌, false, Ok, IfOk, OnOk};
ghost use Rattle.dm_start.specs.Start.{after_line, section_at, told_of, is_begun};
ghost use Rattle.dm_bench.specs.Start as Spec;
ghost use Rattle.dm_bench.specs.Start.{Leads, MayBegin};

use crate::names::{GROUP, add_group, add_leaf};
use dm_base::{Bytes, Memory, hex_into};
use dm_decimals::decimal_text;
use dm_machine::Initiator;
use dm_session::Client;
use dm_start::{Start, StartReader};
use std::alloc::Global;

// Takes a line that isn't the last. One that is refused would be `Memory`; none is, as the law `workload_is_told` says.
fn take_line(reader: &mut StartReader, line: &[u8]) -> Result<(), Memory>
    requires { is_begun (section_at reader.old) ≡ false }
    ensures read { OnOk result (after_line (section_at reader.old) line.now ≡ Ok (section_at reader.new)) }
    ensures open { OnOk result (is_begun (section_at reader.new) ≡ false) }
{
    match reader.line(line) {
        Ok(false) => Ok(()),
        Ok(true) => Err(Memory),
        Err(_) => Err(Memory),
    }
}

// The lines in front of the leaves.
fn take_head(reader: &mut StartReader) -> Result<(), Memory>
    requires { is_begun (section_at reader.old) ≡ false }
    ensures read { OnOk result (Leads (section_at reader.old) Spec.head_lines (section_at reader.new)) }
    ensures open { OnOk result (is_begun (section_at reader.new) ≡ false) }
{
    take_line(reader, b"dm-trace 1")?;
    take_line(reader, b"device d m o 1.2 en")?;
    take_line(reader, b"limits 65536 4194304")?;
    take_line(reader, b"account b - - - - -")?;
    take_line(reader, b"acl . Add=*&Delete=*&Exec=*&Get=*&Replace=*")?;
    take_line(reader, b"interior ./B")?;
    Ok(())
}

// The line of a leaf's group, in front of the group's first leaf.
#[tactic(auto, using(crate::proofs::Leading::no_group, crate::proofs::Leading::some_group))]
fn take_group(reader: &mut StartReader, line: &mut Bytes, leaf: u32) -> Result<(), Memory>
    requires { is_begun (section_at reader.old) ≡ false }
    ensures read { OnOk result (Leads (section_at reader.old) (Spec.group_lines leaf) (section_at reader.new)) }
    ensures open { OnOk result (is_begun (section_at reader.new) ≡ false) }
{
    if leaf % GROUP != 0 {
        return Ok(());
    }
    line.cut_to(0);
    line.extend(b"interior ")?;
    add_group(line, leaf / GROUP)?;
    take_line(reader, line.as_slice())?;
    Ok(())
}

fn put_leaf(alloc: Global, line: &mut Bytes, leaf: u32) -> Result<(), Memory>
    ensures { OnOk result (line.new ≡ Spec.workload_leaf leaf) }
{
    line.cut_to(0);
    line.extend(b"leaf ")?;
    add_leaf(line, leaf)?;
    line.extend(b" chr text/plain ")?;
    hex_into(line, decimal_text(alloc, leaf as u64)?.as_slice())?;
    Ok(())
}

fn take_leaf(
    alloc: Global,
    reader: &mut StartReader,
    line: &mut Bytes,
    leaf: u32,
) -> Result<(), Memory>
    requires { is_begun (section_at reader.old) ≡ false }
    ensures read { OnOk result (Leads (section_at reader.old) (Spec.lines_at leaf) (section_at reader.new)) }
    ensures open { OnOk result (is_begun (section_at reader.new) ≡ false) }
{
    take_group(reader, line, leaf)?;
    put_leaf(alloc, line, leaf)?;
    take_line(reader, line.as_slice())?;
    Ok(())
}

// The lines of all groups and leaves. One line is held at a time.
fn take_leaves(alloc: Global, reader: &mut StartReader, nodes: u32) -> Result<(), Memory>
    requires { is_begun (section_at reader.old) ≡ false }
    ensures read { OnOk result (Leads (section_at reader.old) (Spec.leaf_lines nodes) (section_at reader.new)) }
    ensures open { OnOk result (is_begun (section_at reader.new) ≡ false) }
{
    let mut line = Bytes::new(alloc);
    'leaves: for leaf in 0..nodes {
        take_leaf(alloc, reader, &mut line, leaf)?;
    }
    Ok(())
}

// Takes the last line.
fn finish(mut reader: StartReader) -> Result<Start, Memory>
    requires { is_begun (section_at reader) ≡ false }
    ensures told { IfOk result (λ start. Spec.EndsSection (section_at reader) (told_of start)) }
    ensures client { IfOk result MayBegin }
{
    match reader.line(b"begin") {
        Ok(true) => Ok(reader.finish()),
        Ok(false) => Err(Memory),
        Err(_) => Err(Memory),
    }
}

/// What the client begins with.
pub fn start(alloc: Global, nodes: u32) -> Result<Start, Memory>
    ensures told { IfOk result (λ start. told_of start ≡ Spec.start_of nodes) }
    ensures client { IfOk result MayBegin }
{
    let mut reader = StartReader::new(alloc);
    take_head(&mut reader)?;
    take_leaves(alloc, &mut reader, nodes)?;
    match finish(reader) {
        Ok(start) => Ok(start),
        Err(memory) => Err(memory),
    }
}

/// The client with its session, which is the first and the client's own.
pub fn begun(alloc: Global, nodes: u32) -> Result<Client, Memory>
    ensures { IfOk result (λ client. client.machine ≡ Spec.begun_machine nodes) }
{
    let start = start(alloc, nodes)?;
    let mut client = Client::new(alloc, start.accounts, start.tree, start.limits)?;
    match client.begin(0, Initiator::ByClient, 1) {
        Ok(()) => Ok(client),
        Err(_) => Err(Memory),
    }
}
