// What a step comes to.
ghost use Rattle.std.specs.Prelude.{◌≡◌, [], Bool, false};
ghost use Rattle.dm_tree.specs.Rows.{nodes};
ghost use Rattle.dm_commands.specs.Outcomes.{refused};
ghost use Rattle.dm_commands.specs.Promises.{CarriesOut};
ghost use Rattle.dm_tree.specs.Nodes.{Path as Names};

use dm_base::{Bytes, List};
use dm_tree::Tree;
use dm_undo::Journal;
use std::alloc::Global;

/// What a Get found: the printed URI, the Format, the Type, and the value as text or as it stands.
#[derive(Drop)]
pub struct Found {
    pub uri: Bytes,
    pub format: Bytes,
    /// None for an interior node and for a property.
    pub media: Option<Bytes>,
    /// None in a list, where the node is interior, or where the list is one without values.
    pub value: Option<Bytes>,
}

/// What a step came to: its status code, what it found, and whether it started the update.
#[derive(Drop)]
pub struct Outcome {
    pub code: u32,
    pub results: List<Found>,
    pub started: bool,
}

impl Outcome {
    // A code and nothing else.
    pub(crate) fn of_code(alloc: Global, code: u32) -> Outcome
        ensures { result ≡ record { code = code; results = []; started = false } }
    {
        Outcome {
            code,
            results: List::new(alloc),
            started: false,
        }
    }
}

/// A refusal: the code alone, with tree and journal as they are.
pub(crate) fn refuse(alloc: Global, tree: &Tree, journal: &Journal, code: u32) -> Outcome
    ensures { (moved : Names → Bool) → CarriesOut (refused (nodes tree.now.rows) code) moved
        journal.now tree.now journal.now tree.now result }
{
    let _ = tree;
    let _ = journal;
    Outcome::of_code(alloc, code)
}
