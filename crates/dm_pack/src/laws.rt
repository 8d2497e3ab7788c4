// What a message leaves, and that each one gets on: laws over their definitions.
ghost use Rattle.dm_pack.specs.Laws.{TakesTheMost, CutsTheMost, CutDataIsJoined};
ghost use Rattle.dm_pack.specs.Laws.{TheRestIsLeft, TheFirstGoesOut, TheSecondGoesOut, WhatIsLeftIsReady};

/// What `commit` leaves of a queue is what the message that `fill` made of it leaves.
pub fn the_rest_is_left()
    ensures { TheRestIsLeft }
{}

/// What is left of entries that can be sent can be sent.
pub fn what_is_left_is_ready()
    ensures { WhatIsLeftIsReady }
{}

/// The first entry goes out whole, or a part of it of at least one byte.
pub fn the_first_goes_out()
    ensures { TheFirstGoesOut }
{}

/// So does the second, where the first has at most 250 bytes.
pub fn the_second_goes_out()
    ensures { TheSecondGoesOut }
{}

/// As many entries from the front are taken as fit, and of the next one as many bytes are cut off as fit.
pub fn the_most_is_taken()
    ensures whole { TakesTheMost }
    ensures cut { CutsTheMost }
{}

/// Of Data that is cut nothing is lost and nothing is told twice.
pub fn cut_data_is_joined()
    ensures { CutDataIsJoined }
{}
