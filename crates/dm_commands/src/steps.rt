// One step: a command on one node.
ghost use Rattle.std.specs.Prelude.{◌≡◌, ◌≤◌, ◌&&◌, length, Ok, IfOk, OnOk, OnErr, IsTrue};
ghost use Rattle.dm_base.specs.Limits.{object_limit};
ghost use Rattle.syncml_types.specs.declared.command.Verb.TheVariants as verb;
ghost use Rattle.dm_uri.specs.Names.{is_within_limits};
ghost use Rattle.dm_uri.specs.declared.uri.Query.TheVariants as query;
ghost use Rattle.dm_tree.specs.Nodes.{is_below};
ghost use Rattle.dm_tree.specs.Rows.{nodes, ids};
ghost use Rattle.dm_tree.specs.Devices.{IsUpdateInOrder};
ghost use Rattle.dm_undo.specs.Notes.{Notes};
ghost use Rattle.dm_commands.specs.Outcomes.{asked_by, Does};
ghost use Rattle.dm_commands.specs.Table.{act as act_of, by_verb as verb_of, replace as replaced};
ghost use Rattle.dm_commands.specs.Table.{replace_prop as prop_replaced};
ghost use Rattle.dm_commands.specs.Promises.{IsShortStep, KeepsIds, CarriesOut, is_name_query, is_moved_at};
ghost use Rattle.dm_commands.specs.Promises.{StaysAsBefore};

use crate::adds::add;
use crate::deletes::delete;
use crate::execs::exec;
use crate::finds::get;
use crate::names::replace_name;
use crate::outcome::{Outcome, refuse};
use crate::props::{replace_acl, replace_other, replace_title};
use crate::replaces::replace_value;
use crate::targets::target_of;
use dm_base::Memory;
use dm_tree::Tree;
use dm_undo::Journal;
use dm_uri::{Prop, Query, Uri};
use std::alloc::Global;
use syncml_types::{Step, Verb};

fn replace_prop(
    alloc: Global,
    tree: &mut Tree,
    journal: &mut Journal,
    caller: &[u8],
    step: &Step,
    uri: &Uri,
    prop: Prop,
) -> Result<Outcome, Memory>
    ensures ok { IfOk result (λ outcome. CarriesOut
        (prop_replaced (asked_by caller.now tree.old.clock) (nodes tree.old.rows) step.now uri.now prop)
        (λ p. is_name_query (query.Prop prop) && is_below uri.now.path p)
        journal.old tree.old journal.new tree.new outcome) }
    ensures err { OnErr result (StaysAsBefore journal.old tree.old journal.new tree.new) }
{
    match prop {
        Prop::Acl => replace_acl(alloc, tree, journal, caller, step, uri),
        Prop::Name => replace_name(alloc, tree, journal, caller, step, uri),
        Prop::Title => replace_title(alloc, tree, journal, caller, step, uri),
        Prop::Format | Prop::Size | Prop::Media | Prop::VerNo | Prop::TStamp => {
            Ok(replace_other(alloc, tree, journal, uri))
        }
    }
}

fn replace(
    alloc: Global,
    tree: &mut Tree,
    journal: &mut Journal,
    caller: &[u8],
    step: &mut Step,
    uri: &Uri,
) -> Result<Outcome, Memory>
    requires update { IsUpdateInOrder (nodes tree.old.rows) }
    requires short { length step.old.value ≤ object_limit }
    ensures ok { IfOk result (λ outcome. CarriesOut
        (replaced (asked_by caller.now tree.old.clock) (nodes tree.old.rows) step.old uri.now uri.now.query)
        (is_moved_at verb.Replace (Ok uri.now)) journal.old tree.old journal.new tree.new outcome) }
    ensures err { OnErr result (StaysAsBefore journal.old tree.old journal.new tree.new) }
    ensures step { step.new ≡ record step.old { value = step.new.value } }
{
    match uri.query {
        Query::Plain => replace_value(alloc, tree, journal, caller, step, uri),
        Query::Prop(prop) => replace_prop(alloc, tree, journal, caller, step, uri, prop),
        Query::Struct | Query::StructData => Ok(replace_other(alloc, tree, journal, uri)),
    }
}

fn by_verb(
    alloc: Global,
    tree: &mut Tree,
    journal: &mut Journal,
    caller: &[u8],
    step: &mut Step,
    uri: Uri,
) -> Result<Outcome, Memory>
    requires update { IsUpdateInOrder (nodes tree.old.rows) }
    requires within { IsTrue (is_within_limits uri.path) }
    requires short { IsShortStep step.old }
    ensures ok { IfOk result (λ outcome. CarriesOut
        (verb_of (asked_by caller.now tree.old.clock) (nodes tree.old.rows) step.old uri step.old.verb)
        (is_moved_at step.old.verb (Ok uri)) journal.old tree.old journal.new tree.new outcome) }
    ensures err { OnErr result (StaysAsBefore journal.old tree.old journal.new tree.new) }
    ensures step { step.new ≡ record step.old { value = step.new.value } }
{
    match step.verb {
        Verb::Add => add(alloc, tree, journal, caller, step, uri),
        Verb::Copy => Ok(refuse(alloc, tree, journal, 406)),
        Verb::Delete => delete(alloc, tree, journal, caller, &uri),
        Verb::Exec => exec(alloc, tree, journal, caller, step, &uri),
        Verb::Get => get(alloc, tree, journal, caller, &uri),
        Verb::Replace => replace(alloc, tree, journal, caller, step, &uri),
    }
}

/// One step of a caller on the tree: the first refusal of the step table that holds, with the tree as it is, or else
/// the verb's effect and its code. Each edit is noted in the journal, in which no less is spare after the call than
/// before it.
///
/// A path is looked up once. A list and a rename go through the subtree of the node, a Get of an interior node through
/// the names of its children, and a step of the update through the nodes beside State. The value that a step gives is
/// moved into the tree, and not copied; all else of the step stays. `Memory` is the only error; the tree and the
/// journal's entries are then as before, and the step's value may be gone.
#[tactic(auto, unfolding(crate::specs::Table::act))]
pub fn act(
    alloc: Global,
    tree: &mut Tree,
    journal: &mut Journal,
    caller: &[u8],
    step: &mut Step,
) -> Result<Outcome, Memory>
    requires update { IsUpdateInOrder (nodes tree.old.rows) }
    requires short { IsShortStep step.old }
    ensures done { IfOk result (λ outcome. Does
        (act_of (asked_by caller.now tree.old.clock) (nodes tree.old.rows) step.old) outcome (nodes tree.new.rows)) }
    ensures ids { OnOk result (KeepsIds step.old (ids tree.old.rows) (ids tree.new.rows)) }
    ensures notes { OnOk result (Notes journal.old tree.old.rows journal.new tree.new.rows) }
    ensures clock { tree.new.clock ≡ tree.old.clock }
    ensures err { OnErr result (StaysAsBefore journal.old tree.old journal.new tree.new) }
    ensures step { step.new ≡ record step.old { value = step.new.value } }
{
    match target_of(alloc, step) {
        Ok(Ok(uri)) => by_verb(alloc, tree, journal, caller, step, uri),
        Ok(Err(code)) => Ok(refuse(alloc, tree, journal, code)),
        Err(memory) => Err(memory),
    }
}
