// An entry that waits. The Data that may be cut is kept apart, so that the rest is measured without looking at it, and
// what went out of it is a number, so that nothing moves.
ghost use Rattle.std.specs.Prelude.{◌≡◌, ◌<◌, ◌≤◌, ◌+◌, ◌-◌, ◌^◌, IfOk, OnOk, true};
ghost use Rattle.wbxml_tokens.specs.Spelling.{page_behind};
ghost use Rattle.syncml_types.specs.Fitness.{is_in_limit, command_data};
ghost use Rattle.syncml_parts.specs.Pages.{with_item_value};
ghost use Rattle.syncml_types.specs.Canonical.{command_tokens};
ghost use Rattle.syncml_types.specs.Lengths.{spelled_length};
ghost use Rattle.syncml_parts.specs.Numbering.{ids_in as ids_of_command, with_numbers};
ghost use Rattle.syncml_parts.specs.Packing.{cut_changed, cut_data, bytes_in};
ghost use Rattle.dm_pack.specs.Entries.{whole_entry, data_left, part_of, rest_of, with_size, last_only, last_alone};
ghost use Rattle.dm_pack.specs.Measures.{hollow_item, marked, marks_of, put_back, entry_left, IsTakenApart};
ghost use Rattle.dm_pack.specs.Measures.{apart_value, apart_sent};

use crate::kept_data::{Apart, copy_apart, into_left, kept_apart, leave, left_of, size_of};
use crate::marks::{marked_cost, marks_cost};
use dm_base::{Boxed, Bytes, List, Memory};
use std::alloc::Global;
use std::marker::Model;
use std::mem;
use syncml_parts::{cut_item, cut_item_mut, ids_in, numbered_length, set_ids};
use syncml_types::{Command, Item, Meta};

#[derive(Drop)]
pub(crate) struct Waiting {
    command: Command,
    apart: Option<Boxed<Apart>>,
}

impl Model for Waiting {
    ghost use Rattle.dm_pack.specs.Entries.{Entry};
    ghost use Rattle.dm_pack.specs.Measures.{entry_left, apart_value, apart_sent, IsTakenApart};

    ghost Value = { Entry };

    ghost view = { λ w. entry_left w.command (apart_value w.apart) (apart_sent w.apart) };

    ghost invariant = { λ w. IsTakenApart w.command (apart_value w.apart) (apart_sent w.apart) };
}

fn take_value(alloc: Global, item: &mut Item) -> Bytes
    ensures value { result ≡ bytes_in item.old.value }
    ensures item { item.new ≡ hollow_item item.old }
{
    match &mut item.value {
        None => Bytes::new(alloc),
        Some(value) => mem::replace(value, Bytes::new(alloc)),
    }
}

// Takes the Data out that may be cut.
fn take_data(alloc: Global, command: &mut Command) -> Bytes
    ensures value { result ≡ cut_data command.old }
    ensures command { command.new ≡ cut_changed hollow_item command.old }
{
    match cut_item_mut(command) {
        None => Bytes::new(alloc),
        Some(item) => take_value(alloc, item),
    }
}

/// Takes the Data out that may be cut, of which nothing has gone out, into memory of its own. After `Memory` the
/// Data is lost.
#[tactic(auto, using(crate::proofs::Apart::taken_apart, crate::proofs::Apart::fresh_apart))]
pub(crate) fn set_apart(
    alloc: Global,
    command: &mut Command,
) -> Result<Option<Boxed<Apart>>, Memory>
    ensures apart { IfOk result (λ apart. IsTakenApart command.new (apart_value apart) (apart_sent apart)) }
    ensures whole { IfOk result (λ apart. entry_left command.new (apart_value apart) (apart_sent apart)
        ≡ whole_entry command.old) }
{
    let value = take_data(alloc, command);
    kept_apart(alloc, value)
}

fn write_value(item: &mut Item, value: Bytes)
    ensures { item.new ≡ with_item_value value item.old }
{
    item.value = Some(value);
}

// Data for the item that may be cut.
fn put_value(command: &mut Command, value: Bytes)
    ensures { command.new ≡ cut_changed (with_item_value value) command.old }
{
    match cut_item_mut(command) {
        None => drop(value),
        Some(item) => write_value(item, value),
    }
}

// Puts Data back, where there is some.
#[tactic(auto, using(crate::proofs::Parts::put_none, crate::proofs::Parts::put_some))]
fn put_data(command: &mut Command, value: Bytes)
    ensures { command.new ≡ put_back value command.old }
{
    if value.is_empty() {
        drop(value);
    } else {
        put_value(command, value);
    }
}

// A command with CmdIDs, and with this Data put back.
fn numbered_with(command: Command, value: Bytes, first: u32) -> Command
    requires { first + ids_of_command command < 2 ^ 32 }
    ensures { result ≡ put_back value (with_numbers first command) }
{
    let mut numbered = command;
    set_ids(&mut numbered, first);
    put_data(&mut numbered, value);
    numbered
}

fn set_size(alloc: Global, meta: &mut Option<Boxed<Meta>>, size: u64) -> Result<(), Memory>
    ensures { OnOk result (meta.new ≡ with_size size meta.old) }
{
    match meta {
        Some(meta) => meta.inner.size = Some(size),
        None => {
            let sized = Meta {
                size: Some(size),
                ..Meta::empty()
            };
            *meta = Some(Boxed::new(alloc, sized)?);
        }
    }
    Ok(())
}

fn mark_item(alloc: Global, item: &mut Item, size: Option<u64>) -> Result<(), Memory>
    ensures { OnOk result (item.new ≡ marked size item.old) }
{
    item.more = true;
    match size {
        Some(size) => set_size(alloc, &mut item.meta, size),
        None => Ok(()),
    }
}

// A part that isn't the last has MoreData, and the first one Size.
fn mark_part(alloc: Global, command: &mut Command, size: Option<u64>) -> Result<(), Memory>
    ensures { OnOk result (command.new ≡ cut_changed (marked size) command.old) }
{
    match cut_item_mut(command) {
        None => {}
        Some(item) => mark_item(alloc, item, size)?,
    }
    Ok(())
}

fn keep_last_of<T: Drop>(list: &mut List<T>)
    ensures { list.new ≡ last_only list.old }
{
    let others = list.len().saturating_sub(1);
    list.drop_front(others);
}

fn keep_last(command: &mut Command)
    ensures { command.new ≡ last_alone command.old }
{
    match command {
        Command::Atomic(block) => keep_last_of(&mut block.members),
        Command::Sequence(block) => keep_last_of(&mut block.members),
        Command::Plain(_) | Command::Alert(_) | Command::Status(_) | Command::Results(_) => {}
    }
}

impl Waiting {
    // The entry of a command without its Data, which stands apart.
    pub(crate) fn new(command: Command, apart: Option<Boxed<Apart>>) -> Waiting
        requires { IsTakenApart command (apart_value apart) (apart_sent apart) }
        ensures { result ≡ entry_left command (apart_value apart) (apart_sent apart) }
    {
        Waiting { command, apart }
    }

    pub(crate) fn copy(&self, alloc: Global) -> Result<Waiting, Memory>
        ensures { IfOk result (λ copied. copied ≡ self.now) }
    {
        Ok(Waiting {
            command: self.command.copy(alloc)?,
            apart: copy_apart(alloc, &self.apart)?,
        })
    }

    // The Data that may be cut and hasn't gone out.
    pub(crate) fn left(&self) -> &[u8]
        ensures { result.now ≡ cut_data self.now.command }
    {
        left_of(&self.apart)
    }

    // How many CmdIDs it has.
    pub(crate) fn ids(&self) -> u32
        requires { ids_of_command self.now.command < 2 ^ 32 }
        ensures { result ≡ ids_of_command self.now.command }
    {
        ids_in(&self.command)
    }

    // How long it is without the Data that may be cut, and the page behind it.
    pub(crate) fn hollow_length(&self, page: u8, first: u32) -> (u64, u8)
        requires fit { command_data is_in_limit self.now.command ≡ true }
        requires room { first + ids_of_command self.now.command < 2 ^ 32 }
        ensures length { result.0
            ≡ spelled_length 0 page (command_tokens (with_numbers first (cut_changed hollow_item self.now.command))) }
        ensures page { result.1 ≡ page_behind page (command_tokens (with_numbers first self.now.command)) }
    {
        numbered_length(page, first, &self.command)
    }

    // A copy of the command, with CmdIDs.
    pub(crate) fn to_command(&self, alloc: Global, first: u32) -> Result<Command, Memory>
        requires { first + ids_of_command self.now.command < 2 ^ 32 }
        ensures { IfOk result (λ c. c ≡ with_numbers first self.now.command) }
    {
        let value = Bytes::of_slice(alloc, self.left())?;
        let mut command = self.command.copy(alloc)?;
        set_ids(&mut command, first);
        put_data(&mut command, value);
        Ok(command)
    }

    // The command itself, with CmdIDs.
    pub(crate) fn into_command(self, alloc: Global, first: u32) -> Command
        requires { first + ids_of_command self.command < 2 ^ 32 }
        ensures { result ≡ with_numbers first self.command }
    {
        let Waiting { command, apart } = self;
        numbered_with(command, into_left(alloc, apart), first)
    }

    // How far a message comes with the next part where it comes so far with the whole, both without Data.
    pub(crate) fn marked_length(&self, used: u64) -> u64
        requires some { 0 < data_left self.now }
        requires marks { marks_of self.now.command ≤ used + marks_of (part_of self.now 0) }
        requires low { used ≤ 70000 }
        ensures value { result ≡ used + marks_of (part_of self.now 0) - marks_of self.now.command }
        ensures low { result ≤ 70051 }
    {
        match cut_item(&self.command) {
            None => used,
            Some(item) => {
                let size = size_of(&self.apart);
                used + marked_cost(item, size) - marks_cost(item)
            }
        }
    }

    // The next part with so many bytes of Data, and with CmdIDs.
    pub(crate) fn to_part(&self, alloc: Global, first: u32, bytes: usize) -> Result<Command, Memory>
        requires some { 0 < data_left self.now }
        requires there { bytes ≤ data_left self.now }
        requires room { first + ids_of_command self.now.command < 2 ^ 32 }
        ensures { IfOk result (λ c. c ≡ with_numbers first (part_of self.now bytes)) }
    {
        let value = Bytes::of_slice(alloc, &self.left()[..bytes])?;
        let mut command = self.command.copy(alloc)?;
        set_ids(&mut command, first);
        mark_part(alloc, &mut command, size_of(&self.apart))?;
        put_value(&mut command, value);
        Ok(command)
    }

    // So many bytes more have gone out.
    pub(crate) fn go_on(&mut self, bytes: usize)
        requires some { 0 < bytes }
        requires left { bytes < data_left self.old }
        ensures { self.new ≡ rest_of self.old bytes }
    {
        let left = self.left().len() - bytes;
        leave(&mut self.apart, left);
        keep_last(&mut self.command);
    }
}
