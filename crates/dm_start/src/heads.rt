// The first lines of a start section.
ghost use Rattle.std.specs.Prelude.{◌≡◌, ◌&&◌, IfOk};
ghost use Rattle.dm_base.specs.Fields.{parts, is_short};
ghost use Rattle.dm_start.specs.Fields as Spec;
ghost use Rattle.dm_start.specs.Start.{version_in as version_of_line};

use crate::forms::stamp_in;
use crate::shorts::ShortText;
use dm_base::{FieldForm, Limits, Memory, is_field};
use dm_fields::{six_fields, two_fields};
use dm_tree::Stamp;
use std::alloc::Global;

/// What a device tells of itself: the five leaves of `./DevInfo`.
#[derive(Drop)]
pub struct DeviceInfo {
    pub dev_id: ShortText,
    pub man: ShortText,
    pub model: ShortText,
    pub dm_v: ShortText,
    pub lang: ShortText,
}

/// Which of the first lines comes next, with what those before it told.
#[derive(Drop)]
pub enum Head {
    First,
    /// `device`, in a section of this version.
    Device(u8),
    Limits(u8, DeviceInfo),
    /// `clock`, in version 2 alone.
    Clock(DeviceInfo, Limits),
}

fn is_short(text: &[u8]) -> bool
    ensures { result ≡ is_short text.now }
{
    is_field(FieldForm::Short, text)
}

fn are_short(a: &[u8], b: &[u8], c: &[u8], d: &[u8], e: &[u8]) -> bool
    ensures { result ≡ (is_short a.now && is_short b.now && is_short c.now && is_short d.now && is_short e.now) }
{
    is_short(a) && is_short(b) && is_short(c) && is_short(d) && is_short(e)
}

/// The version that a first line tells.
pub(crate) fn version_in(line: &[u8]) -> Option<u8>
    ensures { result ≡ version_of_line line.now }
{
    if line == b"dm-trace 1".as_slice() {
        Some(1)
    } else if line == b"dm-trace 2".as_slice() {
        Some(2)
    } else {
        None
    }
}

/// What the fields of a `device` line say.
pub(crate) fn device_in(alloc: Global, line: &[u8]) -> Result<Option<DeviceInfo>, Memory>
    ensures { IfOk result (λ device. device ≡ Spec.device_in (parts line.now)) }
{
    let Some((_, dev_id, man, model, dm_v, lang)) = six_fields(line) else {
        return Ok(None);
    };
    if !are_short(dev_id, man, model, dm_v, lang) {
        return Ok(None);
    }
    Ok(Some(DeviceInfo {
        dev_id: ShortText::of_slice(alloc, dev_id)?,
        man: ShortText::of_slice(alloc, man)?,
        model: ShortText::of_slice(alloc, model)?,
        dm_v: ShortText::of_slice(alloc, dm_v)?,
        lang: ShortText::of_slice(alloc, lang)?,
    }))
}

/// What the fields of a `clock` line say.
pub fn clock_in(line: &[u8]) -> Option<Stamp>
    ensures { result ≡ Spec.clock_in (parts line.now) }
{
    let (_, stamp) = two_fields(line)?;
    stamp_in(stamp)
}

impl DeviceInfo {
    /// An equal device.
    pub(crate) fn copy(&self, alloc: Global) -> Result<DeviceInfo, Memory>
        ensures { IfOk result (λ copy. copy ≡ self.now) }
    {
        Ok(DeviceInfo {
            dev_id: self.dev_id.copy(alloc)?,
            man: self.man.copy(alloc)?,
            model: self.model.copy(alloc)?,
            dm_v: self.dm_v.copy(alloc)?,
            lang: self.lang.copy(alloc)?,
        })
    }
}
