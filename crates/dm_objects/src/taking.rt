// How an inbox takes pieces.
ghost use Rattle.std.specs.Prelude.{◌≡◌, true, false, IfOk, OnOk, OnErr};
ghost use Rattle.dm_objects.specs.declared.object.Object.TheVariants.{Nothing, Buffering};
ghost use Rattle.dm_objects.specs.Gathering.{begun_object, continues};
ghost use Rattle.dm_objects.specs.Changes.{object_by, what_by};
ghost use Rattle.dm_objects.specs.InPlace.{what_of, taken_of, sort_of};
ghost use Rattle.dm_objects.specs.Seen.{present, is_unfinished, holding, Takes};

use crate::actions::{
    begun_with, buffered_target, given_up, make_whole, next_alone, sort_of, what_by,
};
use crate::inbox::Inbox;
use crate::keys::continues;
use crate::log::Past;
use crate::object::Object;
use crate::piece::{Piece, Taken, TakenOver};
use crate::rules::{Ruling, by_rules};
use dm_base::Memory;
use std::mem;

impl Inbox {
    // The unfinished object as the rules decided of a piece that continues it.
    #[tactic(auto, using(crate::proofs::SeenObjects::present_seen))]
    fn change(&mut self, verdict: Ruling, piece: &Piece) -> Result<(), Memory>
        requires unfinished { is_unfinished (present self.old.objects) ≡ true }
        ensures ok { OnOk result
            (self.new ≡ holding self.old (object_by verdict (present self.old.objects) piece.now)) }
        ensures err { OnErr result (self.new ≡ self.old) }
    {
        match verdict {
            Ruling::Refuses(_) => self.stay(),
            Ruling::Passes => self.stay(),
            Ruling::Grows => self.grow(piece.step.value.as_slice()),
            Ruling::GivesUp(code) => {
                let next = given_up(self.alloc, &self.object, code)?;
                self.hold(next)
            }
            Ruling::Skips(_) => self.hold(next_alone(self.alloc, verdict, piece)?),
            Ruling::Begins(_) => self.hold(next_alone(self.alloc, verdict, piece)?),
            Ruling::Ends(_) => {
                self.clear();
                Ok(())
            }
            Ruling::Completes => {
                self.clear();
                Ok(())
            }
        }
    }

    // A piece that continues the unfinished object.
    fn take_next(&mut self, piece: &Piece) -> Result<Taken, Memory>
        requires continues { continues (present self.old.objects) piece.now ≡ true }
        ensures ok { IfOk result (λ taken. Takes self.old self.new piece.now taken) }
        ensures err { OnErr result (self.new ≡ self.old) }
    {
        let verdict = by_rules(self.max_obj, &self.object, piece);
        let what = what_by(self.alloc, verdict, &self.object, piece)?;
        self.change(verdict, piece)?;
        Ok(Taken { broken: None, what })
    }

    // A piece that doesn't, and ends it.
    fn take_other(&mut self, piece: &Piece) -> Result<Taken, Memory>
        requires continues { continues (present self.old.objects) piece.now ≡ false }
        ensures ok { IfOk result (λ taken. Takes self.old self.new piece.now taken) }
        ensures err { OnErr result (self.new ≡ self.old) }
    {
        let broken = buffered_target(self.alloc, &self.object)?;
        let verdict = by_rules(self.max_obj, &Object::Nothing, piece);
        let what = what_by(self.alloc, verdict, &Object::Nothing, piece)?;
        let next = next_alone(self.alloc, verdict, piece)?;
        self.hold(next)?;
        Ok(Taken { broken, what })
    }

    /// Takes a piece. After `Memory` all is as before.
    ///
    /// A piece continues the unfinished object where both have the same verb and target and are both inside an Atomic
    /// or both outside; any other ends it, and `broken` tells its target where it was being buffered. Then comes the
    /// first of these that holds:
    /// - a verb other than Add and Replace: refused with 400 where more follows, else whole;
    /// - no target, and more follows: refused with 400;
    /// - it continues an object that is skipped: refused with the same code; the last one ends it;
    /// - it is the first of several: refused with 411 without a Size, 416 where that passes `max_obj`, 424 where its
    ///   bytes pass it, and what continues it is skipped; else buffered;
    /// - it continues: refused with 424 where the bytes so far pass the Size, or where it is the last and they are
    ///   fewer; else buffered, or whole;
    /// - it is the only one: refused with 416 where its bytes pass `max_obj`, else whole.
    pub fn take(&mut self, piece: &Piece) -> Result<Taken, Memory>
        ensures ok { IfOk result (λ taken. Takes self.old self.new piece.now taken) }
        ensures err { OnErr result (self.new ≡ self.old) }
    {
        if continues(&self.object, piece) {
            self.take_next(piece)
        } else {
            self.take_other(piece)
        }
    }

    // The object that a piece begins keeps the piece's texts and bytes.
    #[tactic(auto, using(crate::proofs::SeenObjects::was_seen, crate::proofs::SeenObjects::something_new))]
    fn begin(&mut self, piece: &mut Piece, size: u64) -> Result<(), Memory>
        ensures ok { OnOk result (self.new ≡ holding self.old (Buffering (begun_object piece.old size))) }
        ensures err { OnErr result (self.new ≡ self.old) }
    {
        self.past.reserve(2)?;
        let next = begun_with(self.alloc, piece, size);
        let old = mem::replace(&mut self.object, Object::Buffering(next));
        self.past.push_reserved(Past::Was(old));
        Ok(())
    }

    // The object as the rules decided of a piece that meets none.
    fn change_alone(&mut self, verdict: Ruling, piece: &mut Piece) -> Result<(), Memory>
        ensures ok { OnOk result (self.new ≡ holding self.old (object_by verdict Nothing piece.old)) }
        ensures what { OnOk result (what_of (sort_of verdict) piece.new.step ≡ what_by verdict Nothing piece.old) }
        ensures err { OnErr result (self.new ≡ self.old) }
    {
        match verdict {
            Ruling::Begins(size) => self.begin(piece, size),
            Ruling::Skips(_) => self.hold(next_alone(self.alloc, verdict, piece)?),
            Ruling::Refuses(_) => Ok(self.clear()),
            Ruling::Passes => Ok(self.clear()),
            Ruling::Ends(_) => Ok(self.clear()),
            Ruling::GivesUp(_) => Ok(self.clear()),
            Ruling::Grows => Ok(self.clear()),
            Ruling::Completes => Ok(self.clear()),
        }
    }

    // A piece that continues the unfinished object, and is taken over.
    fn over_next(&mut self, piece: &mut Piece) -> Result<TakenOver, Memory>
        requires continues { continues (present self.old.objects) piece.old ≡ true }
        ensures ok { IfOk result (λ over. Takes self.old self.new piece.old (taken_of over piece.new.step)) }
        ensures err { OnErr result (self.new ≡ self.old) }
    {
        let verdict = by_rules(self.max_obj, &self.object, piece);
        make_whole(self.alloc, verdict, &self.object, &mut piece.step)?;
        self.change(verdict, piece)?;
        Ok(TakenOver {
            broken: None,
            sort: sort_of(verdict),
        })
    }

    // A piece that doesn't, and ends it.
    fn over_other(&mut self, piece: &mut Piece) -> Result<TakenOver, Memory>
        requires continues { continues (present self.old.objects) piece.old ≡ false }
        ensures ok { IfOk result (λ over. Takes self.old self.new piece.old (taken_of over piece.new.step)) }
        ensures err { OnErr result (self.new ≡ self.old) }
    {
        let broken = buffered_target(self.alloc, &self.object)?;
        let verdict = by_rules(self.max_obj, &Object::Nothing, piece);
        self.change_alone(verdict, piece)?;
        Ok(TakenOver {
            broken,
            sort: sort_of(verdict),
        })
    }

    /// Takes a piece as `take` does, but copies nothing that the piece can give: a whole step then stands in the piece
    /// itself, and the texts and bytes of one that begins an object are moved out of it. After `Memory` all is as
    /// before but the piece, which isn't to be used again.
    pub fn take_over(&mut self, piece: &mut Piece) -> Result<TakenOver, Memory>
        ensures ok { IfOk result (λ over. Takes self.old self.new piece.old (taken_of over piece.new.step)) }
        ensures err { OnErr result (self.new ≡ self.old) }
    {
        if continues(&self.object, piece) {
            self.over_next(piece)
        } else {
            self.over_other(piece)
        }
    }
}
