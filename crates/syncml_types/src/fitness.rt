// Whether parts make a message. Nothing here takes memory.
ghost use Rattle.std.specs.Prelude.{◌≡◌, nat_lt, length};
ghost use Rattle.syncml_types.specs.Canonical.{canonical};
ghost use Rattle.syncml_types.specs.Fitness as Spec;
ghost use Rattle.dm_base.specs.Limits.{message_limit};

use crate::command::Command;
use crate::fit_data::has_short_data;
use crate::fit_forms::{all_correlate, are_filled};
use crate::fit_numbers::has_numbers;
use crate::fit_texts::has_plain_texts;
use crate::lengths::parts_length;
use crate::message::Unfit;
use crate::values::Header;
use dm_base::{List, MESSAGE_LIMIT};

const MOST: u64 = MESSAGE_LIMIT as u64;

// Data that can't be spelled is too long, too.
#[tactic(auto, using(crate::proofs::Fitting::long_data, crate::proofs::Fitting::spellable_data))]
fn is_too_long(header: &Header, body: &List<Command>, last: bool) -> bool
    ensures { result
        ≡ nat_lt message_limit (length (canonical (record { header = header.now; body = body.now; last = last }))) }
{
    !has_short_data(header, body.as_slice()) || parts_length(header, body, last) > MOST
}

/// The first reason why parts make no message.
#[tactic(auto, unfolding(crate::specs::Fitness::first_unfit))]
pub(crate) fn first_unfit(header: &Header, body: &List<Command>, last: bool) -> Option<Unfit>
    ensures { result ≡ Spec.first_unfit (record { header = header.now; body = body.now; last = last }) }
{
    if !has_plain_texts(header, body.as_slice()) {
        return Some(Unfit::BadText);
    }
    if !has_numbers(header, body.as_slice()) {
        return Some(Unfit::BadNumber);
    }
    if !are_filled(body.as_slice()) {
        return Some(Unfit::NoItems);
    }
    if !all_correlate(body.as_slice()) {
        return Some(Unfit::BadCorrelator);
    }
    if is_too_long(header, body, last) {
        Some(Unfit::TooLong)
    } else {
        None
    }
}
