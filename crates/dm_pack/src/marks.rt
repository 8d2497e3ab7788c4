// What MoreData and Size add to an entry that goes out as a part. It is counted, so no part is made to be measured.
ghost use Rattle.std.specs.Prelude.{◌≡◌, ◌≤◌, length, decimal};
ghost use Rattle.wbxml_tables.specs.declared.Element.TheVariants.{ESize};
ghost use Rattle.wbxml_tokens.specs.Spelling.{spelled};
ghost use Rattle.syncml_types.specs.Canonical.{optional, number_tokens};
ghost use Rattle.dm_pack.specs.Measures as Spec;
ghost use Rattle.dm_pack.specs.Measures.{marked};

use dm_base::Boxed;
use itoa::Buffer;
use syncml_types::{Item, Meta};

// How many decimal digits a number has.
pub(crate) fn decimal_length(number: u64) -> u64
    ensures value { result ≡ length (decimal number) }
    ensures low { result ≤ 40 }
{
    let mut digits = Buffer::new();
    digits.format(number).len() as u64
}

// The bytes of Size behind a tag of its page.
#[tactic(auto, using(crate::proofs::Marking::size_long))]
fn size_cost(size: Option<u64>) -> u64
    ensures value { result ≡ length (spelled 1 (optional (number_tokens ESize) size)) }
    ensures low { result ≤ 44 }
{
    match size {
        None => 0,
        Some(size) => 4 + decimal_length(size),
    }
}

// A Meta's tag alone, or its two ends with the way to the page of its children and back.
fn meta_cost(meta: &Option<Boxed<Meta>>) -> u64
    ensures value { result ≡ Spec.meta_cost meta.now }
    ensures low { result ≤ 50 }
{
    match meta {
        None => 0,
        Some(meta) => {
            if meta.inner.is_empty() {
                1
            } else {
                6 + size_cost(meta.inner.size)
            }
        }
    }
}

pub(crate) fn marks_cost(item: &Item) -> u64
    ensures value { result ≡ Spec.marks_cost item.now }
    ensures low { result ≤ 51 }
{
    let more = if item.more { 1 } else { 0 };
    meta_cost(&item.meta) + more
}

// The same of a part.
#[tactic(auto, using(crate::proofs::Marking::sized_cost))]
pub(crate) fn marked_cost(item: &Item, size: Option<u64>) -> u64
    ensures value { result ≡ Spec.marks_cost (marked size item.now) }
    ensures low { result ≤ 51 }
{
    match size {
        None => meta_cost(&item.meta) + 1,
        Some(_) => 7 + size_cost(size),
    }
}
