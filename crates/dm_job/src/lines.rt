// The lines of commands, and those that stand among them.
ghost use Rattle.std.specs.Prelude.{◌≡◌, ◌++◌, ◌∷◌, [], None, OnOk, OnErr};
ghost use Rattle.dm_job.specs.Commands as Says;
ghost use Rattle.dm_job.specs.Reading as Spec;
ghost use Rattle.dm_job.specs.Reading.{entry_joined, entry_put};
ghost use Rattle.syncml_parts.specs.Packing.{last_changed};
ghost use Rattle.dm_job.specs.Answers.{MovesOn, AlwaysMovesOn};
ghost use Rattle.dm_job.specs.Measures.{CanClose};

use crate::closing::last_may_close;
use crate::commands::{new_atomic, new_sequence, plain_in, push_member, verb_in};
use crate::draft::{JobDraft, LinePlace};
use crate::job::JobEntry;
use dm_base::{List, Memory};
use dm_fields::{BAD_FIELDS, BAD_WORD, LineError, begins_with};
use std::alloc::Global;
use syncml_types::{Command, Plain, Verb};

// Begins a package with an entry.
fn begin_package(
    alloc: Global,
    packages: &mut List<List<JobEntry>>,
    entry: JobEntry,
) -> Result<(), Memory>
    ensures ok { OnOk result (packages.new ≡ packages.old ++ (entry ∷ []) ∷ []) }
    ensures err { OnErr result (packages.new ≡ packages.old) }
{
    let mut package = List::new(alloc);
    package.push(entry)?;
    packages.push(package)
}

// Adds a value to the last list, where there is one.
#[tactic(auto, using(crate::proofs::Lasts::set_last, crate::proofs::Lasts::kept_last, crate::proofs::Lasts::none_last))]
fn push_last<T: Drop>(lists: &mut List<List<T>>, value: T) -> Result<(), Memory>
    ensures ok { OnOk result (lists.new ≡ last_changed (λ list. list ++ value ∷ []) lists.old) }
    ensures err { OnErr result (lists.new ≡ lists.old) }
{
    let last = lists.len().saturating_sub(1);
    match lists.get_mut(last) {
        Some(list) => list.push(value),
        None => Ok(()),
    }
}

fn push_entry(
    alloc: Global,
    packages: &mut List<List<JobEntry>>,
    place: LinePlace,
    entry: JobEntry,
) -> Result<(), Memory>
    ensures ok { OnOk result (packages.new ≡ entry_put place packages.old entry) }
    ensures err { OnErr result (packages.new ≡ packages.old) }
{
    match place {
        LinePlace::Between => begin_package(alloc, packages, entry),
        LinePlace::Package => push_last(packages, entry),
        LinePlace::Container => push_last(packages, entry),
        LinePlace::End => push_last(packages, entry),
    }
}

// Adds a command, numbered behind those that came. More than 18,446,744,073,709,551,615 of them find no memory.
fn add(alloc: Global, draft: &mut JobDraft, next: LinePlace, command: Command) -> Result<(), Memory>
    ensures { AlwaysMovesOn (Spec.adds draft.old next command) draft.old draft.new result }
{
    let Some(number) = draft.count.checked_add(1) else {
        return Err(Memory);
    };
    let entry = JobEntry { number, command };
    push_entry(alloc, &mut draft.job.packages, draft.place, entry)?;
    draft.place = next;
    draft.count = number;
    Ok(())
}

#[tactic(auto, using(crate::proofs::Lasts::set_last, crate::proofs::Lasts::kept_last, crate::proofs::Lasts::none_last))]
fn join_last_entry(entries: &mut List<JobEntry>, plain: Plain) -> Result<(), Memory>
    ensures ok { OnOk result (entries.new ≡ last_changed (entry_joined plain) entries.old) }
    ensures err { OnErr result (entries.new ≡ entries.old) }
{
    let last = entries.len().saturating_sub(1);
    match entries.get_mut(last) {
        Some(entry) => push_member(&mut entry.command, plain),
        None => Ok(()),
    }
}

#[tactic(auto, using(crate::proofs::Lasts::set_last, crate::proofs::Lasts::kept_last, crate::proofs::Lasts::none_last))]
fn join_last(packages: &mut List<List<JobEntry>>, plain: Plain) -> Result<(), Memory>
    ensures ok { OnOk result (packages.new ≡ last_changed (last_changed (entry_joined plain)) packages.old) }
    ensures err { OnErr result (packages.new ≡ packages.old) }
{
    let last = packages.len().saturating_sub(1);
    match packages.get_mut(last) {
        Some(entries) => join_last_entry(entries, plain),
        None => Ok(()),
    }
}

// Adds a member to the container that is open.
fn join(draft: &mut JobDraft, plain: Plain) -> Result<(), Memory>
    ensures { AlwaysMovesOn (Spec.draft_joined draft.old plain) draft.old draft.new result }
{
    let Some(number) = draft.count.checked_add(1) else {
        return Err(Memory);
    };
    join_last(&mut draft.job.packages, plain)?;
    draft.count = number;
    Ok(())
}

fn close_line(draft: &mut JobDraft, line: &[u8]) -> Result<(), LineError>
    requires { CanClose draft.old.job.packages }
    ensures { MovesOn (Spec.close_line draft.old line.now) draft.old draft.new result }
{
    if line == b"close".as_slice() && last_may_close(&mut draft.job.packages) {
        draft.place = LinePlace::Package;
        Ok(())
    } else {
        Err(BAD_FIELDS)
    }
}

fn inside(alloc: Global, draft: &mut JobDraft, line: &[u8]) -> Result<(), LineError>
    requires { CanClose draft.old.job.packages }
    ensures { MovesOn (Spec.inside draft.old line.now (Says.verb_in line.now)) draft.old draft.new result }
{
    let Some(verb) = verb_in(line) else {
        if begins_with(b"close", line) {
            return close_line(draft, line);
        }
        return Err(BAD_WORD);
    };
    match plain_in(alloc, verb, line)? {
        Some(plain) => {
            join(draft, plain)?;
            Ok(())
        }
        None => Err(BAD_FIELDS),
    }
}

fn open_container(
    alloc: Global,
    draft: &mut JobDraft,
    alone: bool,
    command: Command,
) -> Result<(), LineError>
    ensures { MovesOn (Spec.when alone (Spec.adds draft.old LinePlace.Container command)) draft.old draft.new
        result }
{
    if !alone {
        return Err(BAD_FIELDS);
    }
    add(alloc, draft, LinePlace::Container, command)?;
    Ok(())
}

fn move_to(draft: &mut JobDraft, alone: bool, place: LinePlace) -> Result<(), LineError>
    ensures { MovesOn (Spec.when alone (record draft.old { place = place })) draft.old draft.new result }
{
    if !alone {
        return Err(BAD_FIELDS);
    }
    draft.place = place;
    Ok(())
}

fn between(alloc: Global, draft: &mut JobDraft, line: &[u8]) -> Result<(), LineError>
    ensures { MovesOn (Spec.outside draft.old line.now None) draft.old draft.new result }
{
    if begins_with(b"atomic", line) {
        open_container(
            alloc,
            draft,
            line == b"atomic".as_slice(),
            new_atomic(alloc),
        )
    } else if begins_with(b"sequence", line) {
        open_container(
            alloc,
            draft,
            line == b"sequence".as_slice(),
            new_sequence(alloc),
        )
    } else if begins_with(b"package", line) {
        move_to(draft, line == b"package".as_slice(), LinePlace::Between)
    } else if begins_with(b"end", line) {
        move_to(draft, line == b"end".as_slice(), LinePlace::End)
    } else {
        Err(BAD_WORD)
    }
}

fn outside(alloc: Global, draft: &mut JobDraft, line: &[u8]) -> Result<(), LineError>
    ensures { MovesOn (Spec.outside draft.old line.now (Says.verb_in line.now)) draft.old draft.new result }
{
    let Some(verb) = verb_in(line) else {
        return between(alloc, draft, line);
    };
    match plain_in(alloc, verb, line)? {
        Some(plain) => {
            add(alloc, draft, LinePlace::Package, Command::Plain(plain))?;
            Ok(())
        }
        None => Err(BAD_FIELDS),
    }
}

/// Takes a line behind the first ones.
pub(crate) fn after_draft(alloc: Global, draft: &mut JobDraft, line: &[u8]) -> Result<(), LineError>
    requires { CanClose draft.old.job.packages }
    ensures { MovesOn (Spec.draft_after draft.old.place draft.old line.now) draft.old draft.new result }
{
    match draft.place {
        LinePlace::Between => outside(alloc, draft, line),
        LinePlace::Package => outside(alloc, draft, line),
        LinePlace::Container => inside(alloc, draft, line),
        LinePlace::End => Err(BAD_WORD),
    }
}
