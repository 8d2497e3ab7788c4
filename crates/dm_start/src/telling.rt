// The lines behind the first ones: accounts, what tells of the tree, and `begin`.
ghost use Rattle.dm_start.specs.Laying.{ParksNone};
ghost use Rattle.dm_start.specs.Start as Spec;
ghost use Rattle.dm_start.specs.Start.{told_of, TellsPhase};

use crate::accounts::is_known;
use crate::node_lines::nodes_after;
use dm_auth::Account;
use dm_base::{Limits, LineReason, List};
use dm_fields::{BAD_FIELDS, BAD_WORD, LineError, account_in, begins_with};
use dm_tree::Tree;
use std::alloc::Global;

/// What a start section tells: the version of the trace, what the client takes, whom it talks to, and the tree with its
/// clock that it begins with.
#[derive(Drop)]
pub struct Start {
    pub version: u8,
    pub limits: Limits,
    pub accounts: List<Account>,
    pub tree: Tree,
}

/// How far it has come.
#[derive(Clone, Copy, Debug, PartialEq, Eq)]
pub enum Phase {
    /// No line told of the tree yet.
    Accounts,
    Nodes,
    Begun,
}

const ACCOUNT_LIMIT: usize = 16;

fn account_line(alloc: Global, start: &mut Start, line: &[u8]) -> Result<Phase, LineError>
    ensures told { TellsPhase (Spec.account_line (told_of start.old) line.now) start.old start.new result }
    ensures parked { ParksNone start.old.tree start.new.tree }
{
    let Some(account) = account_in(alloc, line)? else {
        return Err(BAD_FIELDS);
    };
    if start.accounts.len() >= ACCOUNT_LIMIT
        || is_known(start.accounts.as_slice(), account.server.as_slice())
    {
        return Err(LineError::Bad(LineReason::Account));
    }
    start.accounts.push(account)?;
    Ok(Phase::Accounts)
}

fn later_line(alloc: Global, start: &mut Start, line: &[u8]) -> Result<Phase, LineError>
    ensures told { TellsPhase (Spec.later_line (told_of start.old) line.now) start.old start.new result }
    ensures parked { ParksNone start.old.tree start.new.tree }
{
    if !begins_with(b"begin", line) {
        nodes_after(alloc, &mut start.tree, line)?;
        return Ok(Phase::Nodes);
    }
    if line == b"begin".as_slice() {
        Ok(Phase::Begun)
    } else {
        Err(BAD_FIELDS)
    }
}

/// Takes a line, and answers how far the section has come then.
pub(crate) fn after_telling(
    alloc: Global,
    phase: Phase,
    start: &mut Start,
    line: &[u8],
) -> Result<Phase, LineError>
    ensures told { TellsPhase (Spec.after_telling phase (told_of start.old) line.now) start.old start.new result }
    ensures parked { ParksNone start.old.tree start.new.tree }
{
    match phase {
        Phase::Accounts if begins_with(b"account", line) => account_line(alloc, start, line),
        Phase::Accounts if start.accounts.is_empty() => Err(BAD_WORD),
        Phase::Accounts => later_line(alloc, start, line),
        Phase::Nodes => later_line(alloc, start, line),
        Phase::Begun => Err(BAD_WORD),
    }
}
