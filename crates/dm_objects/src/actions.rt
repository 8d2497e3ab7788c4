// What a verdict does, by copies or in place.
ghost use Rattle.std.specs.Prelude.{◌≡◌, [], None, IfOk, OnOk};
ghost use Rattle.dm_objects.specs.declared.object.Object.TheVariants.{Nothing};
ghost use Rattle.dm_objects.specs.Gathering.{buffered_target, begun_object};
ghost use Rattle.dm_objects.specs.Changes.{given_up, completed, object_by, what_by};
ghost use Rattle.dm_objects.specs.InPlace.{sort_of, step_by};

use crate::copies::{begun_by, copy_key, copy_step, joined, key_of, whole_step};
use crate::object::{Begun, Key, Object};
use crate::piece::{Piece, Sort, What};
use crate::rules::Ruling;
use dm_base::{Bytes, Memory};
use std::alloc::Global;
use std::mem;
use syncml_types::Step;
use syncml_types::copies::copy_bytes;

/// The target of an object that is being buffered.
pub(crate) fn buffered_target(alloc: Global, object: &Object) -> Result<Option<Bytes>, Memory>
    ensures { IfOk result (λ target. target ≡ buffered_target object.now) }
{
    match object {
        Object::Nothing => Ok(None),
        Object::Skipping(_, _) => Ok(None),
        Object::Buffering(begun) => match copy_bytes(alloc, &begun.key.target)? {
            Some(target) => Ok(Some(target)),
            None => Ok(Some(Bytes::new(alloc))),
        },
    }
}

/// What continues an object that is being buffered is refused with this code.
pub(crate) fn given_up(alloc: Global, object: &Object, code: u32) -> Result<Object, Memory>
    ensures { IfOk result (λ next. next ≡ given_up object.now code) }
{
    match object {
        Object::Nothing => Ok(Object::Nothing),
        Object::Buffering(begun) => Ok(Object::Skipping(copy_key(alloc, &begun.key)?, code)),
        Object::Skipping(key, other) => Ok(Object::Skipping(copy_key(alloc, key)?, *other)),
    }
}

/// The object behind a piece that meets none.
pub(crate) fn next_alone(alloc: Global, verdict: Ruling, piece: &Piece) -> Result<Object, Memory>
    ensures { IfOk result (λ next. next ≡ object_by verdict Nothing piece.now) }
{
    match verdict {
        Ruling::Skips(code) => Ok(Object::Skipping(key_of(alloc, &piece.step)?, code)),
        Ruling::Begins(size) => Ok(Object::Buffering(begun_by(alloc, piece, size)?)),
        Ruling::Refuses(_) => Ok(Object::Nothing),
        Ruling::Passes => Ok(Object::Nothing),
        Ruling::Ends(_) => Ok(Object::Nothing),
        Ruling::GivesUp(_) => Ok(Object::Nothing),
        Ruling::Grows => Ok(Object::Nothing),
        Ruling::Completes => Ok(Object::Nothing),
    }
}

// The step that a last piece completes; where nothing is buffered it is the piece's own.
fn completed_copy(alloc: Global, object: &Object, step: &Step) -> Result<Step, Memory>
    ensures { IfOk result (λ whole. whole ≡ completed object.now step.now) }
{
    match object {
        Object::Nothing => copy_step(alloc, step),
        Object::Buffering(begun) => whole_step(alloc, begun, step),
        Object::Skipping(_, _) => copy_step(alloc, step),
    }
}

/// What a piece is, whose step is copied.
pub(crate) fn what_by(
    alloc: Global,
    verdict: Ruling,
    object: &Object,
    piece: &Piece,
) -> Result<What, Memory>
    ensures { IfOk result (λ what. what ≡ what_by verdict object.now piece.now) }
{
    match verdict {
        Ruling::Refuses(code) => Ok(What::Refused(code)),
        Ruling::Passes => Ok(What::Whole(copy_step(alloc, &piece.step)?)),
        Ruling::Ends(code) => Ok(What::Refused(code)),
        Ruling::Skips(code) => Ok(What::Refused(code)),
        Ruling::GivesUp(code) => Ok(What::Refused(code)),
        Ruling::Begins(_) => Ok(What::Buffered),
        Ruling::Grows => Ok(What::Buffered),
        Ruling::Completes => Ok(What::Whole(completed_copy(alloc, object, &piece.step)?)),
    }
}

/// What a piece is that is taken over.
pub(crate) fn sort_of(verdict: Ruling) -> Sort
    ensures { result ≡ sort_of verdict }
{
    match verdict {
        Ruling::Refuses(code) => Sort::Refused(code),
        Ruling::Passes => Sort::Whole,
        Ruling::Ends(code) => Sort::Refused(code),
        Ruling::Skips(code) => Sort::Refused(code),
        Ruling::GivesUp(code) => Sort::Refused(code),
        Ruling::Begins(_) => Sort::Buffered,
        Ruling::Grows => Sort::Buffered,
        Ruling::Completes => Sort::Whole,
    }
}

// The last piece's step gets the Format and Type of the first, and the bytes of all.
fn complete(alloc: Global, object: &Object, step: &mut Step) -> Result<(), Memory>
    ensures { OnOk result (step.new ≡ completed object.now step.old) }
{
    if let Object::Buffering(begun) = object {
        step.format = copy_bytes(alloc, &begun.format)?;
        step.media = copy_bytes(alloc, &begun.media)?;
        step.value = joined(alloc, &begun.value, &step.value)?;
    }
    Ok(())
}

/// The step of a piece that is taken over is made whole, where it comes to a whole one.
pub(crate) fn make_whole(
    alloc: Global,
    verdict: Ruling,
    object: &Object,
    step: &mut Step,
) -> Result<(), Memory>
    ensures { OnOk result (step.new ≡ step_by verdict object.now step.old) }
{
    match verdict {
        Ruling::Completes => complete(alloc, object, step),
        Ruling::Refuses(_) => Ok(()),
        Ruling::Passes => Ok(()),
        Ruling::Ends(_) => Ok(()),
        Ruling::Skips(_) => Ok(()),
        Ruling::GivesUp(_) => Ok(()),
        Ruling::Begins(_) => Ok(()),
        Ruling::Grows => Ok(()),
    }
}

/// The object that a piece begins, which keeps the piece's texts and bytes. It takes no memory.
pub(crate) fn begun_with(alloc: Global, piece: &mut Piece, size: u64) -> Begun
    ensures { result ≡ begun_object piece.old size }
{
    Begun {
        key: Key {
            verb: piece.step.verb,
            target: mem::replace(&mut piece.step.target, None),
            in_atomic: piece.step.in_atomic,
        },
        format: mem::replace(&mut piece.step.format, None),
        media: mem::replace(&mut piece.step.media, None),
        size,
        value: mem::replace(&mut piece.step.value, Bytes::new(alloc)),
    }
}
