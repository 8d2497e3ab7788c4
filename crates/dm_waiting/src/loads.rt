// What is kept beside the entries that wait.
ghost use Rattle.std.specs.Prelude.{◌≡◌, ◌≤◌, ◌++◌, is_some, length, take, drop};
ghost use Rattle.std.specs.List.{list_any};
ghost use Rattle.dm_waiting.specs.Inside.{first_begun};
ghost use Rattle.dm_waiting.specs.declared.loads.Load.{Load as ALoad};

use dm_service::Carried;
use std::collections::VecDeque;

/// The commands of the job that an entry carries, none for an answer, and whether bytes of it went out.
#[derive(Clone, Copy, Debug, PartialEq, Eq)]
pub(crate) struct Load {
    pub carries: Option<Carried>,
    pub begun: bool,
}

/// Whether one carries commands of the job.
pub(crate) fn any_carries(loads: &VecDeque<Load>) -> bool
    ensures { result ≡ list_any (λ (l : ALoad). is_some l.carries) loads.now.items }
{
    loads.iter().any(|load| load.carries.is_some())
}

/// Gives up the first ones.
pub(crate) fn drop_front(loads: &mut VecDeque<Load>, count: usize)
    requires { count ≤ length loads.old.items }
    ensures { loads.new.items ≡ drop count loads.old.items }
{
    loads.drain(..count);
}

/// Gives up those between two places.
pub(crate) fn drop_between(loads: &mut VecDeque<Load>, start: usize, end: usize)
    requires order { start ≤ end }
    requires there { end ≤ length loads.old.items }
    ensures { loads.new.items ≡ take start loads.old.items ++ drop end loads.old.items }
{
    loads.drain(start..end);
}

/// The first one is begun, where bytes of it went out.
pub(crate) fn begin(loads: &mut VecDeque<Load>, bytes: u64)
    ensures { loads.new.items ≡ first_begun bytes loads.old.items }
{
    if bytes == 0 {
        return;
    }
    if let Some(first) = loads.front_mut() {
        first.begun = true;
    }
}
