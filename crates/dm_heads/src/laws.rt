// What a head that is read holds, and what more bytes do to an answer.
ghost use Rattle.dm_heads.specs.Laws.{RequestHolds, ReplyHolds, PostsBring, OkRepliesBring, ReplyStatusHolds};
ghost use Rattle.dm_heads.specs.Laws.{NoRequestStatus};
ghost use Rattle.dm_heads.specs.Laws.{LengthEndsBody, WantedIsUnsettled, OneAnswerEach, SettledStays};

/// Law: a request brings a message exactly where it is a POST with no Transfer-Encoding and one Content-Length, and the
/// message is as many bytes behind its head as that says.
pub fn requests_are_posts()
    ensures only { RequestHolds }
    ensures each { PostsBring }
{}

/// Law: a reply brings a message exactly where it has status 200, no Transfer-Encoding and at most one Content-Length,
/// and the message is as many bytes behind its head as that says, or else all of them.
pub fn replies_are_ok()
    ensures only { ReplyHolds }
    ensures each { OkRepliesBring }
{}

/// Law: `NotOk` tells the status of a reply's head, another than 200, and comes of no request.
pub fn statuses_are_told()
    ensures reply { ReplyStatusHolds }
    ensures request { NoRequestStatus }
{}

/// Law: what stands behind a stated length isn't looked at.
pub fn a_length_ends_a_body()
    ensures { LengthEndsBody }
{}

/// Law: behind a head that more of a body may follow no answer is settled.
pub fn a_wanted_body_is_open()
    ensures { WantedIsUnsettled }
{}

/// Law: bytes with a whole head have one answer.
pub fn heads_have_one_answer()
    ensures { OneAnswerEach }
{}

/// Law: more bytes never change an answer that is settled.
#[tactic(auto, using(crate::proofs::OneAnswer::settled_stays))]
pub fn settled_answers_stay()
    ensures { SettledStays }
{}
