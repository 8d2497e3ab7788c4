// What the workload calls its nodes.
ghost use Rattle.std.specs.Prelude.{◌≡◌, ◌++◌, OnOk};
ghost use Rattle.dm_bench.specs.Start.{group_uri, leaf_uri};

use dm_base::{Bytes, Memory};
use dm_decimals::put_decimal;

/// How many leaves stand in a group.
pub(crate) const GROUP: u32 = 256;

/// Adds the URI of a group.
pub(crate) fn add_group(text: &mut Bytes, group: u32) -> Result<(), Memory>
    ensures { OnOk result (text.new ≡ text.old ++ group_uri group) }
{
    text.extend(b"./B/g")?;
    put_decimal(text, group as u64)?;
    Ok(())
}

/// Adds the URI of a leaf.
pub(crate) fn add_leaf(text: &mut Bytes, leaf: u32) -> Result<(), Memory>
    ensures { OnOk result (text.new ≡ text.old ++ leaf_uri leaf) }
{
    add_group(text, leaf / GROUP)?;
    text.extend(b"/n")?;
    put_decimal(text, leaf as u64)?;
    Ok(())
}
