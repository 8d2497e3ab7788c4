// Copies, each equal to what it copies.
ghost use Rattle.std.specs.Prelude.{◌≡◌, IfOk};

use crate::kept::FoundValue;
use dm_base::{List, Memory};
use dm_objects::copy_step;
use dm_service::KeptAlert;
use std::alloc::Global;

pub(crate) fn copy_found(alloc: Global, found: &FoundValue) -> Result<FoundValue, Memory>
    ensures { IfOk result (λ copied. copied ≡ found.now) }
{
    Ok(FoundValue {
        place: found.place,
        value: copy_step(alloc, &found.value)?,
    })
}

fn copy_alert(alloc: Global, alert: &KeptAlert) -> Result<KeptAlert, Memory>
    ensures { IfOk result (λ copied. copied ≡ alert.now) }
{
    Ok(KeptAlert {
        media: alert.media.copy(alloc)?,
        value: alert.value.copy(alloc)?,
    })
}

pub(crate) fn copy_alerts(alloc: Global, alerts: &[KeptAlert]) -> Result<List<KeptAlert>, Memory>
    ensures { IfOk result (λ copied. copied ≡ alerts.now) }
{
    let mut copied = List::new(alloc);
    for alert in alerts {
        copied.push(copy_alert(alloc, alert)?)?;
    }
    Ok(copied)
}
