// What the contracts of an access list mean, over their definitions alone.
ghost use Rattle.dm_acl.specs.Laws.{WhatIsReadIsMeant, WhatIsWrittenIsRead, FirstFaultIsTold, OnlyFaultsAreTold};
ghost use Rattle.dm_acl.specs.Laws.{ReadIsAcl, PrintedIsRead, PrintedIsNoLonger, PrintedIsShort, WhatIsReadIsReadAgain};
ghost use Rattle.dm_acl.specs.Laws.{RepeatsAreLeftOut, EntriesAllow, EntriesName};

/// A text is read exactly where it is written as the grammar says, and then as what it means.
#[tactic(auto, using(crate::proofs::Grammars::what_is_read_is_meant, crate::proofs::Grammars::what_is_written_is_read))]
pub fn texts_are_read_as_meant()
    ensures read { WhatIsReadIsMeant }
    ensures written { WhatIsWrittenIsRead }
{}

/// A text is refused exactly at its first fault, and at 4,096 where it is longer; for nothing else.
pub fn first_faults_are_told()
    ensures fault { FirstFaultIsTold }
    ensures only { OnlyFaultsAreTold }
{}

/// What is read is an access list, and what is printed of one is read again as it.
#[tactic(auto, using(crate::proofs::Grammars::read_is_acl, crate::proofs::Grammars::printed_is_read))]
pub fn printed_lists_are_read()
    ensures acl { ReadIsAcl }
    ensures again { PrintedIsRead }
{}

/// What is read of a text is printed in no more bytes than the text has, so in 4,096 at most, and is always read again
/// as the same. So a list that was read can be kept as its text wherever 4,096 bytes are free for it.
pub fn lists_that_are_read_are_short()
    ensures length { PrintedIsNoLonger }
    ensures limit { PrintedIsShort }
    ensures again { WhatIsReadIsReadAgain }
{}

/// What is allowed is what an entry of the text allows, and a command is named where an entry of the text names it.
#[tactic(auto, using(crate::proofs::Grammars::entries_allow_as_written, crate::proofs::Grammars::entries_name))]
pub fn entries_allow_as_written()
    ensures allow { EntriesAllow }
    ensures name { EntriesName }
{}

/// Where repeats after the first are left out, each name that was given stands once.
#[tactic(auto, using(crate::proofs::Meanings::repeats_are_left_out))]
pub fn names_stand_once()
    ensures { RepeatsAreLeftOut }
{}
