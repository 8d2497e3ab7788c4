// Where the values of each command stand in the one list of all values.
ghost use Rattle.std.specs.Prelude.{◌≡◌, ◌<◌, ◌+◌, IfOk, length, vec_len};
ghost use Rattle.dm_report.specs.Chains.{IsChained};

use crate::kept::FoundValue;
use dm_base::Memory;
use std::alloc::Global;

/// Where the first value of each command stands, and behind each value the next one of the same command. The number of
/// all values stands for none.
#[derive(Drop)]
pub(crate) struct Chains {
    pub first: Vec<usize>,
    pub next: Vec<usize>,
}

// One value more, which stands before those that are chained.
fn chain(first: &mut [usize], next: &mut [usize], found: &[FoundValue], at: usize)
    requires within { at < length found.now }
    requires behind { IsChained found.now (at + 1) first.old next.old }
    ensures { IsChained found.now at first.new next.new }
{
    let place = found[at].place;
    if place < first.len() {
        next[at] = first[place];
        first[place] = at;
    }
}

fn chain_all(first: &mut [usize], next: &mut [usize], found: &[FoundValue])
    requires { IsChained found.now (length found.now) first.old next.old }
    ensures { IsChained found.now 0 first.new next.new }
{
    let mut at = found.len();
    while at > 0 {
        at -= 1;
        chain(first, next, found, at);
    }
}

/// The values of each of so many commands, in the order of their coming, in one walk.
pub(crate) fn chains_of(
    alloc: Global,
    commands: usize,
    found: &[FoundValue],
) -> Result<Chains, Memory>
    ensures chained { IfOk result (λ chains. IsChained found.now 0 chains.first.items chains.next.items) }
    ensures commands { IfOk result (λ chains. vec_len chains.first ≡ commands) }
{
    let mut first = vec![in alloc; found.len(); commands]?;
    let mut next = vec![in alloc; found.len(); found.len()]?;
    chain_all(&mut first, &mut next, found);
    Ok(Chains { first, next })
}
