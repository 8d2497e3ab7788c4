// The value that is being gathered from Results in a session.
ghost use Rattle.std.specs.Prelude.{◌≡◌};
ghost use Rattle.dm_objects.specs.declared.object.Object.TheVariants.{Nothing};

use dm_objects::Inbox;
use std::alloc::Global;
use std::marker::Model;

/// The value that is being gathered from Results in a session.
#[derive(Drop)]
pub struct Gathering {
    pub(crate) inbox: Inbox,
}

impl Model for Gathering {
    ghost use Rattle.std.specs.Prelude.{◌≡◌, ◌∷◌, []};
    ghost use Rattle.dm_objects.specs.Seen.{present};
    ghost use Rattle.dm_report.specs.Known.{GatheredSoFar};
    ghost use Rattle.dm_report.specs.Receiving.{gathered_of};

    ghost Value = { GatheredSoFar };

    ghost view = { λ g. gathered_of g.inbox };

    // Only the present object is kept, and none that stood here before it.
    ghost invariant = { λ g. g.inbox.objects ≡ present g.inbox.objects ∷ [] };
}

impl Gathering {
    /// Nothing is being gathered; values of at most `max_obj` bytes are taken.
    pub fn new(alloc: Global, max_obj: u32) -> Gathering
        ensures { result ≡ record { max_obj = max_obj; object = Nothing } }
    {
        Gathering {
            inbox: Inbox::new(alloc, max_obj),
        }
    }
}
