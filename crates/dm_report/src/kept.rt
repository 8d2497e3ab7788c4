// What is kept of a job.
ghost use Rattle.std.specs.Prelude.{◌≡◌, Some, set, is_some, OnOk, OnErr};
ghost use Rattle.std.specs.List.{list_all};
ghost use Rattle.dm_service.specs.Report.{has_code};
ghost use Rattle.dm_report.specs.Kept.{coded_by, kept_behind, known_of};

use crate::drafts::{Findings, NewCode};
use dm_base::{List, Memory};
use dm_service::KeptAlert;
use syncml_types::Step;

/// A whole value, as the Replace that it is gathered as, and the place in the job of the command that found it, from 0.
#[derive(Drop)]
pub(crate) struct FoundValue {
    pub place: usize,
    pub value: Step,
}

/// The codes of the commands of a job, in order; all values that they found and the alerts that are kept, in the order
/// of their coming.
#[derive(Drop)]
pub(crate) struct Kept {
    pub codes: List<Option<u32>>,
    pub found: List<FoundValue>,
    pub alerts: List<KeptAlert>,
}

// It takes no memory.
fn put_code(codes: &mut List<Option<u32>>, place: usize, code: u32)
    ensures { codes.new ≡ set codes.old place (Some code) }
{
    if let Some(known) = codes.get_mut(place) {
        *known = Some(code);
    }
}

// It takes no memory.
fn put_codes(codes: &mut List<Option<u32>>, new: &[NewCode])
    ensures { codes.new ≡ coded_by new.now codes.old }
{
    for told in new {
        put_code(codes, told.place, told.code);
    }
}

/// Puts what a message tells to what is kept. After `Memory` all is as before.
pub(crate) fn put_draft(kept: &mut Kept, draft: Findings) -> Result<(), Memory>
    ensures ok { OnOk result (kept.new ≡ kept_behind draft kept.old) }
    ensures err { OnErr result (kept.new ≡ kept.old) }
{
    let values = kept.found.len();
    kept.found.append(draft.found)?;
    match kept.alerts.append(draft.alerts) {
        Ok(()) => {}
        Err(memory) => {
            kept.found.cut_to(values);
            return Err(memory);
        }
    }
    put_codes(&mut kept.codes, draft.codes.as_slice());
    Ok(())
}

fn are_coded(codes: &[Option<u32>]) -> bool
    ensures { result ≡ list_all (λ code. is_some code) codes.now }
{
    codes.iter().all(|code| code.is_some())
}

/// Whether each command has its code.
#[tactic(auto, using(crate::proofs::ToldLemmas::told_all_coded))]
pub(crate) fn all_coded(kept: &Kept) -> bool
    ensures { result ≡ list_all has_code (known_of kept.now).told }
{
    are_coded(kept.codes.as_slice())
}
