// The clock of a tree.
ghost use Rattle.std.specs.Prelude.{◌≡◌};
ghost use Rattle.dm_tree.specs.Nodes.{IsStamp};

use crate::nodes::Stamp;
use std::marker::Model;

/// The stamp that was set last.
#[derive(Drop)]
pub struct Clock {
    stamp: Stamp,
}

impl Model for Clock {
    ghost use Rattle.dm_tree.specs.declared.nodes.Stamp.{Stamp as Time};
    ghost use Rattle.dm_tree.specs.Nodes.{IsStamp};

    ghost Value = { Time };

    ghost view = { λ c. c.stamp };

    ghost invariant = { λ c. IsStamp c.stamp };
}

impl Clock {
    pub(crate) fn at(stamp: Stamp) -> Clock
        ensures { result ≡ stamp }
    {
        Clock { stamp }
    }

    pub(crate) fn stamp(&self) -> Stamp
        ensures value { result ≡ self.now }
        ensures kept { IsStamp result }
    {
        self.stamp
    }
}
