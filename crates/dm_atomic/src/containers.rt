// What is told of containers and of groups.
ghost use Rattle.std.specs.Prelude.{◌≡◌, ◌∷◌, ◌++◌, OnOk, OnErr, map};
ghost use Rattle.dm_atomic.specs.Made.{all_reported, told, IsInFront};
ghost use Rattle.dm_atomic.specs.Run.{undone, not_run, container, parts_done, parts_undone};

use crate::entries::{put_own_reports, put_report, put_reports, put_status};
use crate::reports::{Part, Report};
use crate::tasks::{Post, Task};
use dm_base::{List, Memory};
use std::alloc::Global;
use syncml_types::Command;

/// Tells a container's Status, and then its reports. After `Memory` a part of these may be told.
#[tactic(auto, using(crate::proofs::Frames::telling))]
pub(crate) fn put_container(
    alloc: Global,
    post: &Post,
    code: u32,
    reports: &List<Report>,
    out: &mut List<Command>,
) -> Result<(), Memory>
    ensures ok { OnOk result (out.new ≡ out.old ++ told (container post.now code reports.now)) }
    ensures err { OnErr result (IsInFront out.old out.new) }
{
    out.reserve(reports.len().saturating_add(1))?;
    put_status(alloc, post, code, out)?;
    put_reports(alloc, reports, out)
}

/// As `put_container`, where no found value is copied.
#[tactic(auto, using(crate::proofs::Frames::telling))]
pub(crate) fn put_own_container(
    alloc: Global,
    post: &Post,
    code: u32,
    reports: List<Report>,
    out: &mut List<Command>,
) -> Result<(), Memory>
    ensures ok { OnOk result (out.new ≡ out.old ++ told (container post.now code reports)) }
    ensures err { OnErr result (IsInFront out.old out.new) }
{
    out.reserve(reports.len().saturating_add(1))?;
    put_status(alloc, post, code, out)?;
    put_own_reports(alloc, reports, out)
}

/// Tells the parts of a group that succeeded, each with its own codes and Results. After `Memory` a part may be told.
#[tactic(auto, using(crate::proofs::Telling::telling_starts))]
pub(crate) fn put_parts_done(
    alloc: Global,
    parts: &List<Part>,
    out: &mut List<Command>,
) -> Result<(), Memory>
    ensures ok { OnOk result (out.new ≡ out.old ++ told (parts_done parts.now)) }
    ensures err { OnErr result (IsInFront out.old out.new) }
{
    for part in parts.as_slice() {
        put_container(alloc, &part.post, 200, &part.reports, out)?;
    }
    Ok(())
}

// Steps that were undone have no Results.
#[tactic(auto, using(crate::proofs::Telling::telling_starts))]
fn put_undone(alloc: Global, reports: &List<Report>, out: &mut List<Command>) -> Result<(), Memory>
    ensures ok { OnOk result (out.new ≡ out.old ++ told (all_reported (map undone reports.now))) }
    ensures err { OnErr result (IsInFront out.old out.new) }
{
    for report in reports.as_slice() {
        put_status(alloc, &report.post, 216, out)?;
    }
    Ok(())
}

#[tactic(auto, using(crate::proofs::Frames::telling))]
fn put_part_undone(alloc: Global, part: &Part, out: &mut List<Command>) -> Result<(), Memory>
    ensures ok { OnOk result (out.new ≡ out.old ++ told (container part.now.post 507 (map undone part.now.reports))) }
    ensures err { OnErr result (IsInFront out.old out.new) }
{
    put_status(alloc, &part.post, 507, out)?;
    put_undone(alloc, &part.reports, out)
}

/// Tells the parts of a group that failed: 507 for each container, and 216 without Results for its steps. After
/// `Memory` a part may be told.
#[tactic(auto, using(crate::proofs::Telling::telling_starts))]
pub(crate) fn put_parts_undone(
    alloc: Global,
    parts: &List<Part>,
    out: &mut List<Command>,
) -> Result<(), Memory>
    ensures ok { OnOk result (out.new ≡ out.old ++ told (parts_undone parts.now)) }
    ensures err { OnErr result (IsInFront out.old out.new) }
{
    for part in parts.as_slice() {
        put_part_undone(alloc, part, out)?;
    }
    Ok(())
}

#[tactic(auto, using(crate::proofs::Telling::telling_starts))]
fn put_not_run(alloc: Global, tasks: &[Task], out: &mut List<Command>) -> Result<(), Memory>
    ensures ok { OnOk result (out.new ≡ out.old ++ told (all_reported (map not_run tasks.now))) }
    ensures err { OnErr result (IsInFront out.old out.new) }
{
    for task in tasks {
        put_status(alloc, &task.post, 215, out)?;
    }
    Ok(())
}

// The step that failed, and those behind it.
#[tactic(auto, using(crate::proofs::Telling::told_both, crate::proofs::Telling::some_more))]
fn put_failure(
    alloc: Global,
    failed: &Report,
    unrun: &[Task],
    out: &mut List<Command>,
) -> Result<(), Memory>
    ensures ok { OnOk result (out.new ≡ out.old ++ told (all_reported (failed.now ∷ map not_run unrun.now))) }
    ensures err { OnErr result (IsInFront out.old out.new) }
{
    put_report(alloc, failed, out)?;
    put_not_run(alloc, unrun, out)
}

#[tactic(auto, using(crate::proofs::Telling::told_both, crate::proofs::Telling::some_more, crate::proofs::MadeAhead::all_reported_append))]
fn put_steps_failed(
    alloc: Global,
    done: &List<Report>,
    failed: &Report,
    unrun: &[Task],
    out: &mut List<Command>,
) -> Result<(), Memory>
    ensures ok { OnOk result
        (out.new ≡ out.old ++ told (all_reported (map undone done.now ++ failed.now ∷ map not_run unrun.now))) }
    ensures err { OnErr result (IsInFront out.old out.new) }
{
    put_undone(alloc, done, out)?;
    put_failure(alloc, failed, unrun, out)
}

/// Tells a container in which a step failed: 507, 216 without Results for the steps before it, its own report, and 215
/// for the steps behind it. After `Memory` a part may be told.
#[tactic(auto, using(crate::proofs::Frames::telling))]
pub(crate) fn put_failed(
    alloc: Global,
    post: &Post,
    done: &List<Report>,
    failed: &Report,
    unrun: &[Task],
    out: &mut List<Command>,
) -> Result<(), Memory>
    ensures ok { OnOk result (out.new ≡ out.old
        ++ told (container post.now 507 (map undone done.now ++ failed.now ∷ map not_run unrun.now))) }
    ensures err { OnErr result (IsInFront out.old out.new) }
{
    let steps = done.len().saturating_add(unrun.len());
    out.reserve(steps.saturating_add(2))?;
    put_status(alloc, post, 507, out)?;
    put_steps_failed(alloc, done, failed, unrun, out)
}
