// Whether a container may end.
ghost use Rattle.std.specs.Prelude.{◌≡◌, ◌≤◌, false, true, IfSome};
ghost use Rattle.std.specs.Option.{option_map_or};
ghost use Rattle.syncml_types.specs.Fitness.{is_in_limit, command_data};
ghost use Rattle.syncml_types.specs.Lengths.{up_to_most};
ghost use Rattle.syncml_parts.specs.Numbering.{ids_in};
ghost use Rattle.syncml_parts.specs.Packing.{cut_changed, cut_item, list_last};
ghost use Rattle.dm_pack.specs.Entries.{without_value, bare_length as length_of};
ghost use Rattle.dm_job.specs.Commands as Spec;
ghost use Rattle.dm_job.specs.Measures.{value_in, with_data, CanBeMeasured, CanClose};
ghost use Rattle.dm_job.specs.Reading.{last_may_close as may_last_close};

use crate::job::JobEntry;
use dm_base::{Bytes, List};
use std::mem;
use syncml_parts::{cut_item_mut, numbered_length};
use syncml_types::{Command, Item};

const BARE_LIMIT: u64 = 1000;

const MEMBER_LIMIT: usize = 1000;

const FIRST_ID: u32 = 1_000_000_000;

fn member_count(command: &Command) -> usize
    ensures { result ≡ Spec.member_count command.now }
{
    match command {
        Command::Atomic(block) => block.members.len(),
        Command::Sequence(block) => block.members.len(),
        Command::Plain(_) | Command::Alert(_) | Command::Status(_) | Command::Results(_) => 0,
    }
}

fn take_item_value(item: &mut Item) -> Option<Bytes>
    ensures value { result ≡ item.old.value }
    ensures item { item.new ≡ without_value item.old }
{
    mem::replace(&mut item.value, None)
}

// Takes the Data out that may be cut.
fn take_value(command: &mut Command) -> Option<Bytes>
    ensures value { result ≡ value_in (cut_item command.old) }
    ensures command { command.new ≡ cut_changed without_value command.old }
{
    match cut_item_mut(command) {
        None => None,
        Some(item) => take_item_value(item),
    }
}

fn put_item_value(item: &mut Item, value: Option<Bytes>)
    ensures { item.new ≡ with_data value item.old }
{
    item.value = value;
}

// Puts Data back, where there is an item for it.
fn put_value(command: &mut Command, value: Option<Bytes>)
    ensures { command.new ≡ cut_changed (with_data value) command.old }
{
    match cut_item_mut(command) {
        None => drop(value),
        Some(item) => put_item_value(item, value),
    }
}

// How long a container is without the Data of its last member, where its CmdIDs have ten digits.
#[tactic(auto, using(crate::proofs::Members::short_without, crate::proofs::Members::ids_without, crate::proofs::Members::taken_and_put))]
fn bare_length(command: &mut Command) -> u64
    requires short { command_data is_in_limit command.old ≡ true }
    requires few { ids_in command.old ≤ 1001 }
    ensures length { result ≡ up_to_most (length_of command.old) }
    ensures same { command.new ≡ command.old }
{
    let value = take_value(command);
    let (length, _) = numbered_length(0, FIRST_ID, command);
    put_value(command, value);
    length
}

// A container of more members is too long, whatever they are.
#[tactic(auto, using(crate::proofs::Members::stays_open, crate::proofs::Members::too_many, crate::proofs::Members::closes_by))]
fn may_close(command: &mut Command) -> bool
    requires { CanBeMeasured command.old }
    ensures result { result ≡ Spec.may_close command.old }
    ensures same { command.new ≡ command.old }
{
    let members = member_count(command);
    if members == 0 || members > MEMBER_LIMIT {
        return false;
    }
    bare_length(command) <= BARE_LIMIT
}

#[tactic(auto, using(crate::proofs::Lasts::kept_last, crate::proofs::Lasts::none_last))]
fn last_of_package(entries: &mut List<JobEntry>) -> bool
    requires { IfSome (list_last entries.old) (λ e. CanBeMeasured e.command) }
    ensures result { result ≡ option_map_or (λ (e : JobEntry). Spec.may_close e.command) (list_last entries.old) false }
    ensures same { entries.new ≡ entries.old }
{
    let last = entries.len().saturating_sub(1);
    match entries.get_mut(last) {
        Some(entry) => may_close(&mut entry.command),
        None => false,
    }
}

/// Whether the container that is open may end: whether it has members, and is short enough. It goes through a container
/// of at most 1,000 members once.
#[tactic(auto, using(crate::proofs::Lasts::kept_last, crate::proofs::Lasts::none_last))]
pub(crate) fn last_may_close(packages: &mut List<List<JobEntry>>) -> bool
    requires { CanClose packages.old }
    ensures result { result ≡ may_last_close packages.old }
    ensures same { packages.new ≡ packages.old }
{
    let last = packages.len().saturating_sub(1);
    match packages.get_mut(last) {
        Some(entries) => last_of_package(entries),
        None => false,
    }
}
