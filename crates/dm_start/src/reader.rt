// The reader of a start section.
ghost use Rattle.std.specs.Prelude.{◌≡◌, ◌⊎◌, true, false, Ok, IfOk, IfErr, OnOk, OnErr};
ghost use Rattle.dm_base.specs.Fields.{parts};
ghost use Rattle.dm_tree.specs.Rows.{IsNoneParked};
ghost use Rattle.dm_start.specs.declared.heads.Head.TheVariants as head;
ghost use Rattle.dm_start.specs.declared.telling.Phase.TheVariants as phase;
ghost use Rattle.dm_start.specs.Laying.{SaysAs};
ghost use Rattle.dm_fields.specs.Refusing.{Refuses};
ghost use Rattle.dm_start.specs.Soundness.{HasNoneParked};
ghost use Rattle.dm_start.specs.Start as Spec;
ghost use Rattle.dm_start.specs.Start.{after_line as section_after, section_at, told_of, is_begun, ReadsSection};
ghost use Rattle.dm_start.specs.Laws.{IsStart};

use crate::heads::{DeviceInfo, Head, clock_in, device_in, version_in};
use crate::start_trees::start_tree;
use crate::telling::{Phase, Start, after_telling};
use dm_base::{Limits, List};
use dm_fields::{BAD_FIELDS, BAD_WORD, LineError, begins_with, limits_in};
use dm_tree::Stamp;
use std::alloc::Global;
use std::marker::Model;

/// Which line comes next, with what those before it told.
#[derive(Drop)]
pub enum SectionPlace {
    Opening(Head),
    Telling(Phase, Start),
}

/// Reads the start section of a trace, line by line. It is seen as the place that it has come to.
#[derive(Drop)]
pub struct StartReader {
    alloc: Global,
    place: SectionPlace,
}

impl Model for StartReader {
    ghost use Rattle.dm_start.specs.declared.reader.SectionPlace.{SectionPlace};
    ghost use Rattle.dm_start.specs.Start.{section_at};
    ghost use Rattle.dm_start.specs.Soundness.{IsSoundSection, HasNoneParked};

    ghost Value = { SectionPlace };

    ghost view = { λ r. r.place };

    ghost invariant = { λ r. IsSoundSection (section_at r.place) × HasNoneParked r.place };
}

const FIRST_STAMP: Stamp = Stamp {
    bytes: *b"00000000T000000Z",
};

fn started(
    alloc: Global,
    version: u8,
    device: &DeviceInfo,
    limits: Limits,
    clock: Stamp,
) -> Result<SectionPlace, LineError>
    ensures read { SaysAs section_at (Ok (Spec.accounts_next version device.now limits clock)) result }
    ensures parked { IfOk result HasNoneParked }
{
    Ok(SectionPlace::Telling(
        Phase::Accounts,
        Start {
            version,
            limits,
            accounts: List::new(alloc),
            tree: start_tree(alloc, clock, device)?,
        },
    ))
}

fn after_first(line: &[u8]) -> Result<SectionPlace, LineError>
    ensures read { SaysAs section_at (Spec.after_opening head.First line.now) result }
    ensures parked { IfOk result HasNoneParked }
{
    match version_in(line) {
        Some(version) => Ok(SectionPlace::Opening(Head::Device(version))),
        None => Err(BAD_WORD),
    }
}

fn after_device(alloc: Global, version: u8, line: &[u8]) -> Result<SectionPlace, LineError>
    ensures read { SaysAs section_at (Spec.after_opening (head.Device version) line.now) result }
    ensures parked { IfOk result HasNoneParked }
{
    if !begins_with(b"device", line) {
        return Err(BAD_WORD);
    }
    match device_in(alloc, line)? {
        Some(device) => Ok(SectionPlace::Opening(Head::Limits(version, device))),
        None => Err(BAD_FIELDS),
    }
}

fn behind_limits(
    alloc: Global,
    version: u8,
    device: &DeviceInfo,
    limits: Limits,
) -> Result<SectionPlace, LineError>
    ensures read { SaysAs section_at (Ok (Spec.behind_limits version device.now limits)) result }
    ensures parked { IfOk result HasNoneParked }
{
    if version == 2 {
        Ok(SectionPlace::Opening(Head::Clock(device.copy(alloc)?, limits)))
    } else {
        started(alloc, version, device, limits, FIRST_STAMP)
    }
}

fn after_limits(
    alloc: Global,
    version: u8,
    device: &DeviceInfo,
    line: &[u8],
) -> Result<SectionPlace, LineError>
    ensures read { SaysAs section_at (Spec.after_opening (head.Limits version device.now) line.now) result }
    ensures parked { IfOk result HasNoneParked }
{
    if !begins_with(b"limits", line) {
        return Err(BAD_WORD);
    }
    match limits_in(line) {
        Some(limits) => behind_limits(alloc, version, device, limits),
        None => Err(BAD_FIELDS),
    }
}

fn after_clock(
    alloc: Global,
    device: &DeviceInfo,
    limits: Limits,
    line: &[u8],
) -> Result<SectionPlace, LineError>
    ensures read { SaysAs section_at (Spec.after_opening (head.Clock device.now limits) line.now) result }
    ensures parked { IfOk result HasNoneParked }
{
    if !begins_with(b"clock", line) {
        return Err(BAD_WORD);
    }
    match clock_in(line) {
        Some(clock) => started(alloc, 2, device, limits, clock),
        None => Err(BAD_FIELDS),
    }
}

fn after_opening(alloc: Global, opening: &Head, line: &[u8]) -> Result<SectionPlace, LineError>
    ensures read { SaysAs section_at (Spec.after_opening opening.now line.now) result }
    ensures parked { IfOk result HasNoneParked }
{
    match opening {
        Head::First => after_first(line),
        Head::Device(version) => after_device(alloc, *version, line),
        Head::Limits(version, device) => after_limits(alloc, *version, device, line),
        Head::Clock(device, limits) => after_clock(alloc, device, *limits, line),
    }
}

#[tactic(auto, unfolding(crate::specs::Start::after_line))]
fn after_line(alloc: Global, place: &mut SectionPlace, line: &[u8]) -> Result<bool, LineError>
    requires { is_begun (section_at place.old) ≡ false }
    ensures read { ReadsSection (section_after (section_at place.old) line.now) (section_at place.old) (section_at place.new)
        result }
    ensures parked { HasNoneParked place.old → HasNoneParked place.new }
{
    match place {
        SectionPlace::Opening(opening) => {
            let next = after_opening(alloc, opening, line)?;
            *place = next;
            Ok(false)
        }
        SectionPlace::Telling(phase, start) => {
            *phase = after_telling(alloc, *phase, start, line)?;
            Ok(*phase == Phase::Begun)
        }
    }
}

impl StartReader {
    /// A reader of a section of which no line came.
    pub fn new(alloc: Global) -> StartReader
        ensures { section_at result ≡ Spec.opening head.First }
    {
        StartReader {
            alloc,
            place: SectionPlace::Opening(Head::First),
        }
    }

    /// A reader of a section whose first line told this version: the line of the device comes next.
    pub fn behind_first(alloc: Global, version: u8) -> StartReader
        requires { (version ≡ 1) ⊎ (version ≡ 2) }
        ensures { section_at result ≡ Spec.opening (head.Device version) }
    {
        StartReader {
            alloc,
            place: SectionPlace::Opening(Head::Device(version)),
        }
    }

    /// Takes the next line, without its line feed, and answers whether it was `begin`, the last one. It goes through
    /// the line a few times; a node is found by going down from the root.
    ///
    /// `Bad` tells the first reason that holds: `Word` for a first word that may not stand there, `Fields` for their
    /// number or form, `Account` for a server that repeats or a 17th account, `Tree` for what the tree forbids. After
    /// it, and after `Memory`, all is as before the line.
    pub fn line(&mut self, text: &[u8]) -> Result<bool, LineError>
        requires { is_begun (section_at self.old) ≡ false }
        ensures read { OnOk result (section_after (section_at self.old) text.now ≡ Ok (section_at self.new)) }
        ensures last { IfOk result (λ last. last ≡ is_begun (section_at self.new)) }
        ensures bad { IfErr result (Refuses (section_after (section_at self.old) text.now)) }
        ensures err { OnErr result (section_at self.new ≡ section_at self.old) }
    {
        after_line(self.alloc, &mut self.place, text)
    }

    /// What the section told, which is what a client may begin with, whatever its lines were. It takes no memory.
    pub fn finish(self) -> Start
        requires { is_begun (section_at self) ≡ true }
        ensures told { section_at self ≡ Spec.telling phase.Begun (told_of result) }
        ensures sound { IsStart (told_of result) }
        ensures parked { IsNoneParked result.tree.rows }
    {
        match self.place {
            SectionPlace::Telling(_, start) => start,
            SectionPlace::Opening(_) => unreachable!(),
        }
    }
}
