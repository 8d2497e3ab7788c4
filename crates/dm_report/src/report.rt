// The text of the report.
ghost use Rattle.std.specs.Prelude.{◌≡◌, ◌++◌, ◌<◌, Some, IfOk, OnOk, codes, if◌then◌else◌, not, length, vec_len};
ghost use Rattle.std.specs.Fmt.{decimal};
ghost use Rattle.std.specs.List.{flat_map};
ghost use Rattle.dm_base.specs.Fields.{hex_text};
ghost use Rattle.dm_service.specs.Report as Spec;
ghost use Rattle.dm_report.specs.Known.{IsReport};
ghost use Rattle.dm_report.specs.Kept.{values_at, told_from, known_of};
ghost use Rattle.dm_report.specs.Chains.{IsChained};

use crate::chains::{Chains, chains_of};
use crate::kept::{FoundValue, Kept, all_coded};
use dm_base::{Bytes, Memory, hex_into};
use dm_decimals::put_decimal;
use dm_service::KeptAlert;
use std::alloc::Global;
use syncml_types::Step;

fn put_number(out: &mut Bytes, number: u64) -> Result<(), Memory>
    ensures { OnOk result (out.new ≡ out.old ++ Spec.behind_space (decimal number)) }
{
    out.extend(b" ")?;
    put_decimal(out, number)
}

fn put_hex(out: &mut Bytes, bytes: &Bytes) -> Result<(), Memory>
    ensures { OnOk result (out.new ≡ out.old ++ Spec.hex_field (Some bytes.now)) }
{
    out.extend(b" ")?;
    hex_into(out, bytes.as_slice())
}

fn put_hex_or_none(out: &mut Bytes, bytes: &Option<Bytes>) -> Result<(), Memory>
    ensures { OnOk result (out.new ≡ out.old ++ Spec.hex_field bytes.now) }
{
    match bytes {
        Some(bytes) => put_hex(out, bytes),
        None => out.extend(b" -"),
    }
}

fn put_status(out: &mut Bytes, number: u64, code: u32) -> Result<(), Memory>
    ensures { OnOk result (out.new ≡ out.old ++ Spec.reported_status number code) }
{
    out.extend(b"status")?;
    put_number(out, number)?;
    put_number(out, u64::from(code))?;
    out.extend(b"\n")
}

fn put_result(out: &mut Bytes, found: &Step) -> Result<(), Memory>
    ensures { OnOk result (out.new ≡ out.old ++ Spec.result_line found.now) }
{
    out.extend(b"result")?;
    put_hex_or_none(out, &found.target)?;
    put_hex_or_none(out, &found.format)?;
    put_hex_or_none(out, &found.media)?;
    put_hex(out, &found.value)?;
    out.extend(b"\n")
}

// The values of the command at a place, along its chain.
fn put_values(
    out: &mut Bytes,
    found: &[FoundValue],
    first: &[usize],
    next: &[usize],
    place: usize,
) -> Result<(), Memory>
    requires chained { IsChained found.now 0 first.now next.now }
    requires within { place < length first.now }
    ensures { OnOk result (out.new ≡ out.old ++ flat_map Spec.result_line (values_at place found.now)) }
{
    let mut at = first[place];
    while at < found.len() {
        put_result(out, &found[at].value)?;
        at = next[at];
    }
    Ok(())
}

// The commands before the first one that has no code.
fn put_told(out: &mut Bytes, kept: &Kept, chains: &Chains) -> Result<(), Memory>
    requires chained { IsChained kept.now.found 0 chains.now.first.items chains.now.next.items }
    requires within { vec_len chains.now.first ≡ length kept.now.codes }
    ensures { OnOk result (out.new ≡ out.old ++ Spec.told_text 1 (told_from 0 kept.now.codes kept.now.found)) }
{
    for (place, code) in kept.codes.as_slice().iter().enumerate() {
        let Some(code) = code else {
            return Ok(());
        };
        put_status(out, place as u64 + 1, *code)?;
        put_values(
            out,
            kept.found.as_slice(),
            chains.first.as_slice(),
            chains.next.as_slice(),
            place,
        )?;
    }
    Ok(())
}

fn put_alert(out: &mut Bytes, alert: &KeptAlert) -> Result<(), Memory>
    ensures { OnOk result (out.new ≡ out.old ++ Spec.alert_line alert.now) }
{
    out.extend(b"alert 1226")?;
    put_hex(out, &alert.media)?;
    put_hex(out, &alert.value)?;
    out.extend(b"\n")
}

fn put_alerts(out: &mut Bytes, alerts: &[KeptAlert]) -> Result<(), Memory>
    ensures { OnOk result (out.new ≡ out.old ++ flat_map Spec.alert_line alerts.now) }
{
    for alert in alerts {
        put_alert(out, alert)?;
    }
    Ok(())
}

fn state_word(ran: bool, all_coded: bool) -> &'static [u8]
    ensures { result.now ≡ (if not ran then codes "waiting" else if all_coded then codes "over" else codes "running") }
{
    match (ran, all_coded) {
        (false, _) => b"waiting",
        (true, true) => b"over",
        (true, false) => b"running",
    }
}

/// The report of what is kept.
pub(crate) fn report_text(alloc: Global, kept: &Kept, ran: bool) -> Result<Bytes, Memory>
    ensures { IfOk result (λ text. IsReport (known_of kept.now) ran text) }
{
    let chains = chains_of(alloc, kept.codes.len(), kept.found.as_slice())?;
    let mut out = Bytes::new(alloc);
    put_told(&mut out, kept, &chains)?;
    put_alerts(&mut out, kept.alerts.as_slice())?;
    out.extend(b"state ")?;
    out.extend(state_word(ran, all_coded(kept)))?;
    out.extend(b"\n")?;
    Ok(out)
}
