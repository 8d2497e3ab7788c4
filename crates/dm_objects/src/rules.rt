// What a piece comes to, by the object that it meets.
ghost use Rattle.dm_objects.specs.declared.object.Object.TheVariants.{Nothing, Buffering};
ghost use Rattle.dm_objects.specs.Gathering.{first_of_several, single, next_piece, write_piece, by_rules};
ghost use Rattle.dm_objects.specs.Changes.{IsCame, object_by, what_by};

use crate::keys::is_write;
use crate::object::{Begun, Object};
use crate::piece::Piece;

/// What the rules decide. It is a small value, so that objects and steps are made where they are to stand.
#[derive(Clone, Copy)]
pub enum Ruling {
    /// The piece is refused with this code, and the object stays.
    Refuses(u32),
    /// The piece is a whole step as it stands, and the object stays.
    Passes,
    /// The piece is refused with this code, and no more comes of the object.
    Ends(u32),
    /// The piece is refused with this code, and so is what continues it.
    Skips(u32),
    /// The piece is refused with this code, and so is what continues the object.
    GivesUp(u32),
    /// The piece is the first of an object of this Size.
    Begins(u64),
    /// The piece's bytes come behind the object's own.
    Grows,
    /// The piece is the last of the object.
    Completes,
}

fn first_of_several(max: u32, piece: &Piece) -> Ruling
    ensures { IsCame (first_of_several max piece.now piece.now.size)
        (object_by result Nothing piece.now) (what_by result Nothing piece.now) }
{
    let Some(size) = piece.size else {
        return Ruling::Skips(411);
    };
    if u64::from(max) < size {
        return Ruling::Skips(416);
    }
    if size < piece.step.value.len() as u64 {
        return Ruling::Skips(424);
    }
    Ruling::Begins(size)
}

fn single(max: u32, piece: &Piece) -> Ruling
    ensures { IsCame (single max piece.now) (object_by result Nothing piece.now) (what_by result Nothing piece.now) }
{
    if u64::from(max) < piece.step.value.len() as u64 {
        return Ruling::Ends(416);
    }
    Ruling::Passes
}

fn met_nothing(max: u32, piece: &Piece) -> Ruling
    ensures { IsCame (write_piece max Nothing piece.now)
        (object_by result Nothing piece.now) (what_by result Nothing piece.now) }
{
    if piece.more {
        first_of_several(max, piece)
    } else {
        single(max, piece)
    }
}

fn next_piece(begun: &Begun, piece: &Piece) -> Ruling
    ensures { IsCame (next_piece begun.now piece.now)
        (object_by result (Buffering begun.now) piece.now) (what_by result (Buffering begun.now) piece.now) }
{
    let total = begun.value.len() as u128 + piece.step.value.len() as u128;
    if u128::from(begun.size) < total {
        return if piece.more {
            Ruling::GivesUp(424)
        } else {
            Ruling::Ends(424)
        };
    }
    if piece.more {
        return Ruling::Grows;
    }
    if total == u128::from(begun.size) {
        return Ruling::Completes;
    }
    Ruling::Ends(424)
}

fn write_piece(max: u32, object: &Object, piece: &Piece) -> Ruling
    ensures { IsCame (write_piece max object.now piece.now)
        (object_by result object.now piece.now) (what_by result object.now piece.now) }
{
    match object {
        Object::Nothing => met_nothing(max, piece),
        Object::Buffering(begun) => next_piece(begun, piece),
        Object::Skipping(_, code) => {
            if piece.more {
                Ruling::Refuses(*code)
            } else {
                Ruling::Ends(*code)
            }
        }
    }
}

/// What a piece comes to, where the object that it meets is the one that it continues, or none.
pub(crate) fn by_rules(max: u32, object: &Object, piece: &Piece) -> Ruling
    ensures { IsCame (by_rules max object.now piece.now)
        (object_by result object.now piece.now) (what_by result object.now piece.now) }
{
    if !is_write(piece.step.verb) {
        // Such a verb has no pieces.
        return if piece.more {
            Ruling::Refuses(400)
        } else {
            Ruling::Passes
        };
    }
    if piece.more && piece.step.target.is_none() {
        return Ruling::Refuses(400);
    }
    write_piece(max, object, piece)
}
