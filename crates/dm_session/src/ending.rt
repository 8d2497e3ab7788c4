// How a session ends.
ghost use Rattle.std.specs.Prelude.{◌≡◌, []};
ghost use Rattle.dm_atomic.specs.Run.{abandoned};
ghost use Rattle.dm_atomic.specs.Engine.{state_of, IsSoundEngine};
ghost use Rattle.dm_commands.specs.Promises.{none_moved};
ghost use Rattle.dm_session.specs.Frames.{KeepsBut};

use dm_atomic::Engine;
use dm_pack::Queue;

/// What waits and what is unfinished is given up. It takes no memory.
#[tactic(auto, using(dm_atomic::proofs::Staying::stay_committed))]
pub(crate) fn close(engine: &mut Engine, queue: &mut Queue)
    requires sound { IsSoundEngine engine.old }
    ensures state { state_of engine.new ≡ abandoned (state_of engine.old) }
    ensures queue { queue.new ≡ [] }
    ensures keeps { KeepsBut none_moved engine.old engine.new }
{
    engine.abandon();
    queue.cut_to(0);
}
