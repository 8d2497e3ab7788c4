// What holds of trees, over the definitions alone.
ghost use Rattle.dm_tree.specs.Laws.{SubtreeBegins, TopIsBelow, NearestDecides, NoneDecides, NearestAllows};
ghost use Rattle.dm_tree.specs.Laws.{ChangedKeepsUpdate, AddedKeepsUpdate};
ghost use Rattle.dm_tree.specs.Laws.{PrunedKeepsUpdate, RenamedKeepsUpdate, ChangedKeepsDevice, AddedKeepsDevice};
ghost use Rattle.dm_tree.specs.Laws.{PrunedKeepsDevice, RenamedKeepsDevice, BareDeviceIsDevice, UpdateIsFound};

/// A subtree, in the order of the tree text, is its top, and then what stands behind that in it.
#[tactic(auto, using(crate::proofs::NodesBehind::subtree_begins))]
pub fn subtree_begins()
    ensures { SubtreeBegins }
{}

/// Each path counts as below itself, so that one may go through a subtree from its top on.
#[tactic(auto, using(crate::proofs::Paths::below_self))]
pub fn top_is_below()
    ensures { TopIsBelow }
{}

/// A right is decided by the nearest node upwards, itself first, whose access list names it, and by none exactly where
/// no list upwards does. Allowed is what that list's entry says.
#[tactic(auto, using(crate::proofs::NearestLists::nearest_decides, crate::proofs::NearestLists::none_decides, crate::proofs::NearestLists::nearest_allows))]
pub fn the_nearest_decides()
    ensures nearest { NearestDecides }
    ensures none { NoneDecides }
    ensures allows { NearestAllows }
{}

/// What an edit leaves of the update part: it stays where it is and in order, as long as its nodes stay for what they
/// are, State's value is one of the five states, no further node of the update comes in, and nothing permanent is taken
/// out or renamed.
pub fn edits_keep_the_update()
    ensures changed { ChangedKeepsUpdate }
    ensures added { AddedKeepsUpdate }
    ensures pruned { PrunedKeepsUpdate }
    ensures renamed { RenamedKeepsUpdate }
{}

/// What an edit leaves of a device's tree: its values and its update part stay where they are, as long as no value is
/// written that is only read, each state is one of the five, each Type is a text, no node of the update comes in, and
/// nothing permanent is taken out or renamed.
pub fn edits_keep_the_device()
    ensures changed { ChangedKeepsDevice }
    ensures added { AddedKeepsDevice }
    ensures pruned { PrunedKeepsDevice }
    ensures renamed { RenamedKeepsDevice }
{}

/// A tree with the root, and with the five values of a device, is a device's.
pub fn bare_device_is_device()
    ensures { BareDeviceIsDevice }
{}

/// Where the update part is in order, its three nodes are found by their roles.
pub fn update_is_found()
    ensures { UpdateIsFound }
{}
