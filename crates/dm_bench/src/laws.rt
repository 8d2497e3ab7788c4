//! What holds of each workload.

ghost use Rattle.dm_bench.specs.Start.{WorkloadIsTold};

use dm_base::laws::hex_is_read_again;

/// Law: of at most 60,000 leaves no line of the start section is refused. So the tree and the account that the client
/// begins with are those that all of its lines tell.
pub fn workload_is_told()
    ensures { WorkloadIsTold }
{
    hex_is_read_again();
}
