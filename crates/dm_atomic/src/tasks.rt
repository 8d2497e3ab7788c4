// What a command comes to: one task for each of its items, and what the Status of each answers.
ghost use Rattle.std.specs.Prelude.{◌≡◌};
ghost use Rattle.dm_atomic.specs.Tasks.{named_text};

use dm_base::Bytes;
use dm_objects::Piece;
use syncml_types::Verb;

/// The message that a command came in, and whether all Statuses of that message are suppressed.
#[derive(Clone, Copy, Debug, PartialEq, Eq)]
pub struct Origin {
    pub msg: u32,
    pub quiet: bool,
}

/// The name of a command, as its Status tells it.
#[derive(Clone, Copy, Debug, PartialEq, Eq)]
pub enum Named {
    Verb(Verb),
    Alert,
    Atomic,
    Sequence,
}

/// What a Status answers: a container, an Alert, or the item of a command at this place, from 0.
#[derive(Drop)]
pub struct Post {
    pub msg: u32,
    pub command: u32,
    pub place: usize,
    pub name: Named,
    /// The item's target, where the command has several items.
    pub target: Option<Bytes>,
    /// Whether the Status is suppressed.
    pub quiet: bool,
}

/// What is to be done: a piece of a step of a verb, or an Alert of this code.
#[derive(Drop)]
pub enum Work {
    Piece(Piece),
    Alert(u32),
}

/// One task, and what its Status answers.
#[derive(Drop)]
pub struct Task {
    pub post: Post,
    pub work: Work,
}

/// The command's name.
pub fn name_of(named: Named) -> &'static [u8]
    ensures { result.now ≡ named_text named }
{
    match named {
        Named::Verb(Verb::Add) => b"Add",
        Named::Verb(Verb::Copy) => b"Copy",
        Named::Verb(Verb::Delete) => b"Delete",
        Named::Verb(Verb::Exec) => b"Exec",
        Named::Verb(Verb::Get) => b"Get",
        Named::Verb(Verb::Replace) => b"Replace",
        Named::Alert => b"Alert",
        Named::Atomic => b"Atomic",
        Named::Sequence => b"Sequence",
    }
}
