// What holds of the checks of headers, over their definitions alone.
ghost use Rattle.dm_headers.specs.Laws.{FaultReadsNothing, AcceptedForGood};

/// Law: in a message with a fault neither the credential nor the Status is read. Nonces and acceptance stay, and no
/// failure counts.
pub fn fault_reads_nothing()
    ensures { FaultReadsNothing }
{}

/// Law: an end that was accepted in a session stays so in it.
pub fn accepted_for_good()
    ensures { AcceptedForGood }
{}
