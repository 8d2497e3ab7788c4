// Which requests hold no message.
ghost use Rattle.dm_http.specs.Laws.{RefusedHoldsNone, WantedHoldsNone};

/// Law: a request that is refused holds no message, nor does one of which more is wanted.
#[tactic(auto, using(crate::proofs::Unread::refused_holds_none, crate::proofs::Unread::wanted_holds_none))]
pub fn unread_requests_hold_none()
    ensures refused { RefusedHoldsNone }
    ensures wanted { WantedHoldsNone }
{}
