// The entries that tell what was made.
ghost use Rattle.std.specs.Prelude.{◌≡◌, [], ◌∷◌, ◌++◌, IfOk, OnOk, OnErr, Some, None, map};
ghost use Rattle.syncml_types.specs.declared.command.Command.TheVariants as commands;
ghost use Rattle.dm_atomic.specs.Made.{Status, Result as AResult, Broken, reported, all_reported, notice, found_meta};
ghost use Rattle.dm_atomic.specs.Made.{source_item, uri_in, command_told, told, IsInFront};

use crate::reports::Report;
use crate::tasks::{Post, name_of};
use dm_base::{Boxed, Bytes, List, Memory};
use dm_commands::Found;
use dm_uri::is_uri;
use std::alloc::Global;
use syncml_types::copies::copy_bytes;
use syncml_types::{AlertCmd, Command, Item, Loc, Meta, ResultsCmd, StatusCmd};

fn uri_in(alloc: Global, text: &Option<Bytes>) -> Result<List<Bytes>, Memory>
    ensures { IfOk result (λ uris. uris ≡ uri_in text.now) }
{
    let mut uris = List::new(alloc);
    if let Some(text) = text {
        if is_uri(text.as_slice()) {
            uris.push(text.copy(alloc)?)?;
        }
    }
    Ok(uris)
}

fn status_of(alloc: Global, post: &Post, code: u32) -> Result<StatusCmd, Memory>
    ensures { IfOk result (λ status. commands.Status status ≡ command_told (Status post.now code)) }
{
    Ok(StatusCmd {
        id: 0,
        msg_ref: post.msg,
        cmd_ref: post.command,
        cmd: Bytes::of_slice(alloc, name_of(post.name))?,
        target_refs: uri_in(alloc, &post.target)?,
        source_refs: List::new(alloc),
        chal: None,
        code,
        items: List::new(alloc),
    })
}

/// Tells a Status, unless it is suppressed. After `Memory` nothing is told.
#[inline(always)]
pub(crate) fn put_status(
    alloc: Global,
    post: &Post,
    code: u32,
    out: &mut List<Command>,
) -> Result<(), Memory>
    ensures ok { OnOk result (out.new ≡ out.old ++ told (Status post.now code ∷ [])) }
    ensures err { OnErr result (out.new ≡ out.old) }
{
    if post.quiet {
        return Ok(());
    }
    out.push(Command::Status(status_of(alloc, post, code)?))
}

fn source_item(uri: Bytes, meta: Option<Boxed<Meta>>, value: Option<Bytes>) -> Item
    ensures { result ≡ source_item uri meta value }
{
    Item {
        target: None,
        source: Some(Loc { uri, name: None }),
        meta,
        value,
        more: false,
    }
}

fn found_item(alloc: Global, found: Found) -> Result<Item, Memory>
    ensures { IfOk result (λ item. item ≡ source_item found.uri (Some (found_meta found)) found.value) }
{
    let Found {
        uri,
        format,
        media,
        value,
    } = found;
    let meta = Meta {
        format: Some(format),
        media,
        ..Meta::empty()
    };
    let meta = Boxed::new(alloc, meta)?;
    Ok(source_item(uri, Some(meta), value))
}

fn found_items(alloc: Global, found: Found) -> Result<List<Item>, Memory>
    ensures { IfOk result (λ items. items ≡ source_item found.uri (Some (found_meta found)) found.value ∷ []) }
{
    let mut items = List::with_room(alloc, 1)?;
    items.push(found_item(alloc, found)?)?;
    Ok(items)
}

fn results_of(alloc: Global, post: &Post, found: Found) -> Result<ResultsCmd, Memory>
    ensures { IfOk result (λ results. commands.Results results ≡ command_told (AResult post.now found)) }
{
    Ok(ResultsCmd {
        id: 0,
        msg_ref: Some(post.msg),
        cmd_ref: post.command,
        meta: None,
        target_ref: None,
        source_ref: None,
        items: found_items(alloc, found)?,
    })
}

/// Tells a found value. After `Memory` nothing is told.
pub(crate) fn put_result(
    alloc: Global,
    post: &Post,
    found: Found,
    out: &mut List<Command>,
) -> Result<(), Memory>
    ensures ok { OnOk result (out.new ≡ out.old ++ told (AResult post.now found ∷ [])) }
    ensures err { OnErr result (out.new ≡ out.old) }
{
    out.push(Command::Results(results_of(alloc, post, found)?))
}

fn copy_found(alloc: Global, found: &Found) -> Result<Found, Memory>
    ensures { IfOk result (λ copied. copied ≡ found.now) }
{
    Ok(Found {
        uri: found.uri.copy(alloc)?,
        format: found.format.copy(alloc)?,
        media: copy_bytes(alloc, &found.media)?,
        value: copy_bytes(alloc, &found.value)?,
    })
}

fn put_copied(
    alloc: Global,
    post: &Post,
    found: &Found,
    out: &mut List<Command>,
) -> Result<(), Memory>
    ensures ok { OnOk result (out.new ≡ out.old ++ told (AResult post.now found.now ∷ [])) }
    ensures err { OnErr result (out.new ≡ out.old) }
{
    put_result(alloc, post, copy_found(alloc, found)?, out)
}

fn broken_items(alloc: Global, target: &[u8]) -> Result<List<Item>, Memory>
    ensures { IfOk result (λ items. items ≡ map (λ uri. source_item uri None None) (uri_in (Some target.now))) }
{
    let mut items = List::new(alloc);
    if is_uri(target) {
        items.push(source_item(Bytes::of_slice(alloc, target)?, None, None))?;
    }
    Ok(items)
}

fn alert_of(alloc: Global, target: &[u8]) -> Result<AlertCmd, Memory>
    ensures { IfOk result (λ alert. commands.Alert alert ≡ command_told (Broken target.now)) }
{
    Ok(AlertCmd {
        id: 0,
        no_resp: false,
        code: 1225,
        correlator: None,
        items: broken_items(alloc, target)?,
    })
}

/// Tells that the object of this target was broken, by an Alert 1225. After `Memory` nothing is told.
pub(crate) fn put_broken(
    alloc: Global,
    target: &[u8],
    out: &mut List<Command>,
) -> Result<(), Memory>
    ensures ok { OnOk result (out.new ≡ out.old ++ told (Broken target.now ∷ [])) }
    ensures err { OnErr result (out.new ≡ out.old) }
{
    out.push(Command::Alert(alert_of(alloc, target)?))
}

/// Tells of the object that was broken, where one was. After `Memory` nothing is told.
pub(crate) fn put_notice(
    alloc: Global,
    broken: &Option<Bytes>,
    out: &mut List<Command>,
) -> Result<(), Memory>
    ensures ok { OnOk result (out.new ≡ out.old ++ told (notice broken.now)) }
    ensures err { OnErr result (out.new ≡ out.old) }
{
    match broken {
        None => Ok(()),
        Some(target) => put_broken(alloc, target.as_slice(), out),
    }
}

#[tactic(auto, using(crate::proofs::Telling::telling_starts))]
fn put_results(
    alloc: Global,
    post: &Post,
    found: &List<Found>,
    out: &mut List<Command>,
) -> Result<(), Memory>
    ensures ok { OnOk result (out.new ≡ out.old ++ told (map (AResult post.now) found.now)) }
    ensures err { OnErr result (IsInFront out.old out.new) }
{
    for found in found.as_slice() {
        put_copied(alloc, post, found, out)?;
    }
    Ok(())
}

// The values go into their commands as they are.
#[tactic(auto, using(crate::proofs::Telling::nothing_more, crate::proofs::Telling::some_more, crate::proofs::Telling::one_more))]
fn put_own_results(
    alloc: Global,
    post: &Post,
    found: List<Found>,
    out: &mut List<Command>,
) -> Result<(), Memory>
    ensures ok { OnOk result (out.new ≡ out.old ++ told (map (AResult post.now) found)) }
    ensures err { OnErr result (IsInFront out.old out.new) }
{
    for value in found.into_vec() {
        put_result(alloc, post, value, out)?;
    }
    Ok(())
}

/// Tells the Status of a task, and then its Results, of which no value is copied. After `Memory` a part may be told.
#[tactic(auto, using(crate::proofs::Frames::telling))]
#[inline(always)]
pub(crate) fn put_own_report(
    alloc: Global,
    report: Report,
    out: &mut List<Command>,
) -> Result<(), Memory>
    ensures ok { OnOk result (out.new ≡ out.old ++ told (reported report)) }
    ensures err { OnErr result (IsInFront out.old out.new) }
{
    let Report { post, code, found } = report;
    put_status(alloc, &post, code, out)?;
    put_own_results(alloc, &post, found, out)
}

/// Tells these in order, of which no value is copied. After `Memory` a part may be told.
#[tactic(auto, using(crate::proofs::Telling::nothing_more, crate::proofs::Telling::some_more, crate::proofs::MadeAhead::reports_more))]
pub(crate) fn put_own_reports(
    alloc: Global,
    reports: List<Report>,
    out: &mut List<Command>,
) -> Result<(), Memory>
    ensures ok { OnOk result (out.new ≡ out.old ++ told (all_reported reports)) }
    ensures err { OnErr result (IsInFront out.old out.new) }
{
    for report in reports.into_vec() {
        put_own_report(alloc, report, out)?;
    }
    Ok(())
}

/// Tells the Status of a task, and then its Results. After `Memory` a part of these may be told.
#[tactic(auto, using(crate::proofs::Frames::telling))]
pub(crate) fn put_report(
    alloc: Global,
    report: &Report,
    out: &mut List<Command>,
) -> Result<(), Memory>
    ensures ok { OnOk result (out.new ≡ out.old ++ told (reported report.now)) }
    ensures err { OnErr result (IsInFront out.old out.new) }
{
    put_status(alloc, &report.post, report.code, out)?;
    put_results(alloc, &report.post, &report.found, out)
}

/// Tells these in order. After `Memory` a part may be told.
#[tactic(auto, using(crate::proofs::Telling::telling_starts))]
pub(crate) fn put_reports(
    alloc: Global,
    reports: &List<Report>,
    out: &mut List<Command>,
) -> Result<(), Memory>
    ensures ok { OnOk result (out.new ≡ out.old ++ told (all_reported reports.now)) }
    ensures err { OnErr result (IsInFront out.old out.new) }
{
    for report in reports.as_slice() {
        put_report(alloc, report, out)?;
    }
    Ok(())
}
