// The engine, and what is read of it.
ghost use Rattle.std.specs.Prelude.{◌≡◌, ◌≤◌, is_some};
ghost use Rattle.dm_tree.specs.Rows.{nodes, ids};
ghost use Rattle.dm_atomic.specs.Engine.{state_of, IsSoundEngine};
ghost use Rattle.dm_atomic.specs.Updates.{clock_of, max_obj_of, is_updating, TellsStarted};
ghost use Rattle.dm_atomic.specs.Marks.{whole_of, past_of, Holds};

use crate::reports::{Part, Started};
use dm_base::List;
use dm_objects::Inbox;
use dm_tree::{Stamp, Tree};
use dm_undo::{Journal, Mark};
use std::alloc::Global;

/// What executes commands: the working tree with its journal, the unfinished object, the open group, and the update
/// that was started.
#[derive(Drop)]
pub struct Engine {
    pub(crate) alloc: Global,
    pub(crate) tree: Tree,
    pub(crate) journal: Journal,
    pub(crate) inbox: Inbox,
    pub(crate) is_open: bool,
    /// Where the open group began.
    pub(crate) mark: Mark,
    pub(crate) parts: List<Part>,
    pub(crate) started: Option<Started>,
    /// The groups that ended since the engine was settled. There is room for the one that is open.
    pub(crate) ended: Vec<EndedGroup>,
    /// What `started` was since then.
    pub(crate) starts: Vec<Option<Started>>,
}

/// A group that ended: where it began, and its parts.
#[derive(Drop)]
pub(crate) struct EndedGroup {
    pub mark: Mark,
    pub parts: List<Part>,
}

impl Engine {
    /// The working tree.
    pub fn tree(&self) -> &Tree
        ensures nodes { nodes result.now.rows ≡ (state_of self.now).tree }
        ensures ids { ids result.now.rows ≡ (whole_of self.now).ids }
        ensures clock { result.now.clock ≡ clock_of self.now }
    {
        &self.tree
    }

    /// Whether a group is open.
    pub fn group_open(&self) -> bool
        ensures { result ≡ is_some (state_of self.now).group }
    {
        self.is_open
    }

    /// The update that was started and hasn't ended. None exactly where State isn't 60, in every state that an engine
    /// comes to from a tree of its own: `BeginsTelling` and the laws beside it say that such a state tells its update.
    pub fn started(&self) -> &Option<Started>
        ensures started { result.now ≡ (state_of self.now).started }
        ensures none { TellsStarted (state_of self.now) → is_some result.now ≡ is_updating (state_of self.now).tree }
    {
        &self.started
    }

    /// Sets the clock. All else stays.
    pub fn set_clock(&mut self, now: Stamp)
        requires sound { IsSoundEngine self.old }
        ensures clock { clock_of self.new ≡ now }
        ensures max_obj { max_obj_of self.new ≡ max_obj_of self.old }
        ensures whole { whole_of self.new ≡ whole_of self.old }
        ensures past { past_of self.new ≡ past_of self.old }
        ensures marks { Holds self.old self.new }
        ensures sound { IsSoundEngine self.new }
    {
        self.tree.set_clock(now);
    }
}
