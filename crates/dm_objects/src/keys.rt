// Which pieces belong together.
ghost use Rattle.std.specs.Prelude.{◌≡◌, bytes_eq};
ghost use Rattle.syncml_types.specs.Verbs.{is_write};
ghost use Rattle.dm_objects.specs.Gathering.{key_of, verb_number, is_same_text, is_same_place, is_same_key, continues};
ghost use Rattle.dm_objects.specs.Seen.{is_unfinished};

use crate::object::{Key, Object};
use crate::piece::Piece;
use dm_base::Bytes;
use syncml_types::{Step, Verb};

fn verb_number(verb: Verb) -> u8
    ensures { result ≡ verb_number verb }
{
    match verb {
        Verb::Add => 0,
        Verb::Copy => 1,
        Verb::Delete => 2,
        Verb::Exec => 3,
        Verb::Get => 4,
        Verb::Replace => 5,
    }
}

fn is_same_text(text: &Option<Bytes>, other: &Option<Bytes>) -> bool
    ensures { result ≡ is_same_text text.now other.now }
{
    match text {
        None => other.is_none(),
        Some(text) => match other {
            None => false,
            Some(other) => text.as_slice() == other.as_slice(),
        },
    }
}

fn is_same_place(inside: bool, other: bool) -> bool
    ensures { result ≡ is_same_place inside other }
{
    if inside { other } else { !other }
}

fn is_of(key: &Key, step: &Step) -> bool
    ensures { result ≡ is_same_key key.now (key_of step.now) }
{
    verb_number(key.verb) == verb_number(step.verb)
        && is_same_text(&key.target, &step.target)
        && is_same_place(key.in_atomic, step.in_atomic)
}

pub(crate) fn continues(object: &Object, piece: &Piece) -> bool
    ensures { result ≡ continues object.now piece.now }
{
    match object {
        Object::Nothing => false,
        Object::Buffering(begun) => is_of(&begun.key, &piece.step),
        Object::Skipping(key, _) => is_of(key, &piece.step),
    }
}

pub(crate) fn is_write(verb: Verb) -> bool
    ensures { result ≡ is_write verb }
{
    match verb {
        Verb::Add | Verb::Replace => true,
        Verb::Copy | Verb::Delete | Verb::Exec | Verb::Get => false,
    }
}

pub(crate) fn is_unfinished(object: &Object) -> bool
    ensures { result ≡ is_unfinished object.now }
{
    match object {
        Object::Nothing => false,
        Object::Buffering(_) => true,
        Object::Skipping(_, _) => true,
    }
}
