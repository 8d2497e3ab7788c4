// The forms, and the reading of words.
ghost use Rattle.std.specs.Prelude.{◌≡◌, map, string_bytes, IfOk, IfSome};
ghost use Rattle.dm_words.specs.Forms.{form_of, IsWithinBounds};

use crate::behind::form_with;
use crate::subcommands::read_subcommand;
use dm_base::{Bytes, Memory};
use dm_machine::Initiator;
use std::alloc::Global;

/// What the tool says of words that have no form.
pub const USAGE: &str =
    "usage: dmtool replay | device ADDRESS SERVER KIND SESSION PATH | serve ADDRESS COUNT | pair | show | check | \
     bench SEED NODES MESSAGES | conform | make\n";

// The first word alone is clap's: those behind it have no options.
const CLAP_WORDS: usize = 1;

/// Where a device finds its server, and the session that it opens. ADDRESS and SERVER have 1 to 255 bytes of 21 to 7E
/// and no hyphen at the front, PATH as many behind a slash.
#[derive(Drop)]
pub struct DeviceWords {
    pub address: Bytes,
    /// The name of the server's account.
    pub server: Bytes,
    pub kind: Initiator,
    /// 1 to 4,294,967,294.
    pub session: u32,
    pub path: Bytes,
}

/// Where a server listens, and how many connections it answers.
#[derive(Drop)]
pub struct ServeWords {
    pub address: Bytes,
    /// 1 to 1,000,000.
    pub count: u32,
}

/// What the words of a command line ask for.
#[derive(Drop)]
pub enum Form {
    Replay,
    Device(DeviceWords),
    Serve(ServeWords),
    Pair,
    Show,
    Check,
    /// A workload of this seed, with 1 to 60,000 leaves and at most 10,000 messages.
    Bench {
        seed: u64,
        nodes: u32,
        messages: u32,
    },
    Conform,
    Make,
}

/// The form that the words have: none, where they are other words, or more or fewer than it has, or a number is out of
/// its bounds or form. `Memory` alone is an error.
#[tactic(auto, using(crate::proofs::Words::some_form, crate::proofs::Words::no_form, crate::proofs::Words::too_few))]
pub fn read_form(alloc: Global, words: &[String]) -> Result<Option<Form>, Memory>
    ensures form { IfOk result (λ form. form ≡ form_of (map string_bytes words.now)) }
    ensures bounds { IfOk result (λ form. IfSome form IsWithinBounds) }
{
    if words.len() < CLAP_WORDS {
        return Ok(None);
    }
    let (first, behind) = words.split_at(CLAP_WORDS);
    match read_subcommand(alloc, first) {
        Ok(Some(subcommand)) => form_with(alloc, subcommand, behind),
        Ok(None) => Ok(None),
        Err(memory) => Err(memory),
    }
}
