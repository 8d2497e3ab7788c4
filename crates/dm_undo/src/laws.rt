// What the list of trees is: laws over its definition.
ghost use Rattle.dm_undo.specs.Laws.{EachPlaceHasATree, RecordsLeadBack, RolledBackRecordsLeadForward, RollBacksReturn};

/// There is a tree for each place between entries; the last one stands now.
pub fn each_place_has_a_tree()
    ensures { EachPlaceHasATree }
{}

/// A record leads from the tree after it to the tree before it.
pub fn records_lead_back()
    ensures { RecordsLeadBack }
{}

/// After a roll back stands the tree again to which it went.
pub fn roll_backs_return()
    ensures { RollBacksReturn }
{}

/// A record that was rolled back leads from the tree before it to the tree after it.
pub fn rolled_back_records_lead_forward()
    ensures { RolledBackRecordsLeadForward }
{}
