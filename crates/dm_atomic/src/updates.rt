// Where an engine begins, and how an update ends.
ghost use Rattle.std.specs.Prelude.{◌≡◌, ◌≤◌, ◌<◌, ◌∷◌, ◌++◌, [], List as ListOf, ℕ, None, Some, is_some, true};
ghost use Rattle.std.specs.Prelude.{vec_len, vec_capacity, IfOk, IfSome, OnOk, OnErr};
ghost use Rattle.dm_base.specs.Limits.{object_limit};
ghost use Rattle.dm_tree.specs.Rows.{nodes, ids, path_of, IsLive, IsParkedTop};
ghost use Rattle.dm_tree.specs.Devices.{update_node, IsUpdateInOrder};
ghost use Rattle.dm_commands.specs.Outcomes.{asked_by};
ghost use Rattle.dm_atomic.specs.Engine.{state_of, running, IsSoundEngine};
ghost use Rattle.dm_atomic.specs.Updates.{clock_of, max_obj_of, is_updating, update_of as update_in, begun};
ghost use Rattle.dm_atomic.specs.Updates.{update_finished};
ghost use Rattle.dm_atomic.specs.Marks.{whole_of, Holds, past_of, no_past, LeavesNone};

use crate::engine::Engine;
use crate::reports::Started;
use dm_base::{List, Memory};
use dm_commands::end_update;
use dm_objects::Inbox;
use dm_tree::{Tree, UpdateIds};
use dm_undo::Journal;
use std::alloc::Global;
use std::mem;

// The nodes of the update that runs, if one does.
#[tactic(auto, using(crate::proofs::UpdateEnds::none_runs, crate::proofs::UpdateEnds::other_text, crate::proofs::UpdateEnds::sixty_text))]
fn running_update(tree: &Tree) -> Option<UpdateIds>
    requires update { IsUpdateInOrder (nodes tree.now.rows) }
    ensures runs { is_some result ≡ is_updating (nodes tree.now.rows) }
    ensures found { IfSome result (λ found. IsLive tree.now.rows found.update
        × (update_node (nodes tree.now.rows) ≡ Some (path_of tree.now.rows found.update))) }
{
    let found = tree.update_ids()?;
    let state = tree.view(found.state);
    if state.value.bytes.as_slice() != b"60".as_slice() {
        return None;
    }
    Some(found)
}

// The update that the tree tells of.
#[tactic(auto, using(crate::proofs::UpdateEnds::none_of, crate::proofs::UpdateEnds::some_of))]
fn update_of(tree: &Tree) -> Result<Option<Started>, Memory>
    requires update { IsUpdateInOrder (nodes tree.now.rows) }
    ensures { IfOk result (λ started. started ≡ update_in (nodes tree.now.rows)) }
{
    match running_update(tree) {
        None => Ok(None),
        Some(found) => Ok(Some(Started {
            node: tree.path(found.update)?,
            correlator: None,
        })),
    }
}

impl Engine {
    /// An engine over a tree whose update part is in order, for objects of at most `max_obj` bytes. Nothing is
    /// unfinished in it; an update that runs was started, without a Correlator. The only error is want of memory.
    #[tactic(auto, using(crate::proofs::Results::begun_state, crate::proofs::Results::begun_sound))]
    pub fn new(alloc: Global, tree: Tree, max_obj: u32) -> Result<Engine, Memory>
        requires update { IsUpdateInOrder (nodes tree.rows) }
        requires max_obj { max_obj ≤ object_limit }
        ensures state { IfOk result (λ engine. state_of engine ≡ begun (nodes tree.rows)) }
        ensures ids { IfOk result (λ engine. (whole_of engine).ids ≡ ids tree.rows) }
        ensures past { IfOk result (λ engine. past_of engine ≡ no_past) }
        ensures parked { IfOk result
            (λ engine. ((k : ℕ) → IsParkedTop tree.rows k → ⊥) → LeavesNone engine) }
        ensures running { IfOk result (λ engine. (caller : ListOf ℕ) → running engine caller
            ≡ record { setting = asked_by caller tree.clock; max_obj = max_obj }) }
        ensures sound { IfOk result IsSoundEngine }
    {
        let started = update_of(&tree)?;
        // It tells that the rows are a tree.
        let _ = tree.root();
        let mut journal = Journal::new(alloc)?;
        // One entry is spare, always.
        journal.reserve(1)?;
        let mark = journal.mark();
        let inbox = Inbox::new(alloc, max_obj);
        Ok(Engine {
            alloc,
            tree,
            journal,
            inbox,
            is_open: false,
            mark,
            parts: List::new(alloc),
            started,
            ended: Vec::new(alloc),
            starts: Vec::new(alloc),
        })
    }

    // Another update is the one that was started, or none is.
    pub(crate) fn put_started(&mut self, next: Option<Started>)
        requires room { vec_len self.old.starts < vec_capacity self.old.starts }
        ensures same { self.new ≡ record self.old { started = next; starts = self.new.starts } }
        ensures starts { self.new.starts.items ≡ self.old.starts.items ++ self.old.started ∷ [] }
        ensures capacity { vec_capacity self.new.starts ≡ vec_capacity self.old.starts }
    {
        let old = mem::replace(&mut self.started, next);
        self.starts.push_reserved(old);
    }

    /// Whether an update runs: State is 60.
    pub fn is_updating(&self) -> bool
        requires sound { IsSoundEngine self.now }
        ensures { result ≡ is_updating (state_of self.now).tree }
    {
        running_update(&self.tree).is_some()
    }

    /// The update that runs has its result, which the tree tells then; none is started. The only error is want of
    /// memory; the state is then as before.
    #[tactic(auto, using(crate::proofs::Results::before_state, crate::proofs::Held::holds_room, crate::proofs::Engines::room_sound))]
    pub fn finish_update(&mut self, ok: bool) -> Result<(), Memory>
        requires sound { IsSoundEngine self.old }
        requires running { is_updating (state_of self.old).tree ≡ true }
        requires closed { (state_of self.old).group ≡ None }
        ensures ok { OnOk result (state_of self.new ≡ update_finished (clock_of self.old) (state_of self.old) ok) }
        ensures err { OnErr result (state_of self.new ≡ state_of self.old) }
        ensures clock { clock_of self.new ≡ clock_of self.old }
        ensures max_obj { max_obj_of self.new ≡ max_obj_of self.old }
        ensures ids { (whole_of self.new).ids ≡ (whole_of self.old).ids }
        ensures marks { Holds self.old self.new }
        ensures sound { IsSoundEngine self.new }
    {
        self.starts.reserve(1)?;
        end_update(self.alloc, &mut self.tree, &mut self.journal, ok)?;
        self.put_started(None);
        Ok(())
    }
}
