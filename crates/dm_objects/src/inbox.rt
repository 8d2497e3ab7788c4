// The inbox, which can go back to where a mark was taken.
ghost use Rattle.std.specs.Prelude.{◌≡◌, [], ◌∷◌, ◌++◌, ◌+◌, ◌<◌, length, take, is_some, true, false, OnOk, OnErr};
ghost use Rattle.std.specs.Prelude.{None, IfOk};
ghost use Rattle.dm_objects.specs.declared.object.Object.TheVariants.{Nothing, Skipping};
ghost use Rattle.dm_objects.specs.declared.piece.What.TheVariants.{Whole};
ghost use Rattle.dm_objects.specs.Gathering.{key_of, continues, buffered_target};
ghost use Rattle.dm_objects.specs.Inside.{is_buffering_inside, stays, failed_inside};
ghost use Rattle.dm_objects.specs.Seen.{Seen, present, is_unfinished, is_whole_step, holding, extended, Takes};

use crate::actions::{buffered_target, given_up};
use crate::copies::key_of;
use crate::keys::{continues, is_unfinished};
use crate::log::{Past, extend_value, go_back};
use crate::object::Object;
use crate::piece::Piece;
use dm_base::{Bytes, Memory};
use std::alloc::Global;
use std::marker::Model;
use std::mem;

/// The object that is unfinished, and what stood here since the inbox was settled. It is seen as the list of the
/// objects that it has held since then, the present one last.
#[derive(Drop)]
pub struct Inbox {
    pub(crate) alloc: Global,
    pub(crate) max_obj: u32,
    pub(crate) object: Object,
    pub(crate) past: Vec<Past>,
}

impl Model for Inbox {
    ghost use Rattle.std.specs.Prelude.{◌≡◌, ◌<◌, true, vec_len, vec_capacity};
    ghost use Rattle.dm_objects.specs.Seen.{Seen, seen_of, is_unfinished};

    ghost Value = { Seen };

    ghost view = { λ i. record { max_obj = i.max_obj; objects = seen_of i.past.items i.object } };

    // So `clear` takes no memory.
    ghost invariant = { λ i. is_unfinished i.object ≡ true → vec_len i.past < vec_capacity i.past };
}

/// A place to go back to: how many objects were seen before the present one.
#[derive(Clone, Copy)]
pub struct InboxMark {
    pub(crate) at: usize,
}

impl Model for InboxMark {
    ghost use Rattle.std.specs.Prelude.{ℕ};

    ghost Value = { ℕ };

    ghost view = { λ mark. mark.at };

    ghost inverse = { λ at. record { at = at } };
}

impl Inbox {
    /// An inbox with no object, for objects of at most `max_obj` bytes.
    pub fn new(alloc: Global, max_obj: u32) -> Inbox
        ensures { result ≡ record { max_obj = max_obj; objects = Nothing ∷ [] } }
    {
        Inbox {
            alloc,
            max_obj,
            object: Object::Nothing,
            past: Vec::new(alloc),
        }
    }

    /// The present place. It takes no memory.
    #[tactic(auto, using(crate::proofs::SeenObjects::seen_long))]
    pub fn mark(&self) -> InboxMark
        ensures { result + 1 ≡ length self.now.objects }
    {
        InboxMark {
            at: self.past.len(),
        }
    }

    /// Whether an object is being buffered.
    #[tactic(auto, using(crate::proofs::SeenObjects::present_seen))]
    pub fn buffering(&self) -> bool
        ensures { result ≡ is_some (buffered_target (present self.now.objects)) }
    {
        match &self.object {
            Object::Nothing => false,
            Object::Buffering(_) => true,
            Object::Skipping(_, _) => false,
        }
    }

    /// Whether an object that was begun in an Atomic is being buffered.
    #[tactic(auto, using(crate::proofs::SeenObjects::present_seen))]
    pub fn buffering_inside(&self) -> bool
        ensures { result ≡ is_buffering_inside (present self.now.objects) }
    {
        is_inside(&self.object)
    }

    /// Whether a piece continues the unfinished object.
    #[tactic(auto, using(crate::proofs::SeenObjects::present_seen))]
    pub fn continues(&self, piece: &Piece) -> bool
        ensures { result ≡ continues (present self.now.objects) piece.now }
    {
        continues(&self.object, piece)
    }

    // Whether a piece meets nothing unfinished, is the only one, and is no larger than the greatest object.
    #[tactic(auto, using(crate::proofs::SeenObjects::present_seen))]
    fn is_alone(&self, piece: &Piece) -> bool
        ensures { result ≡ is_whole_step self.now.max_obj (present self.now.objects) piece.now }
    {
        !is_unfinished(&self.object)
            && !piece.more
            && piece.step.value.len() as u64 <= u64::from(self.max_obj)
    }

    /// Whether a piece is a whole step as it stands, so that taking it breaks nothing and changes nothing here: nothing
    /// is unfinished, no more follows, and its bytes don't pass `max_obj`. The step needn't be copied then.
    pub fn passes(&self, piece: &Piece) -> bool
        ensures exact { result ≡ is_whole_step self.now.max_obj (present self.now.objects) piece.now }
        ensures takes { result ≡ true
            → Takes self.now self.now piece.now (record { broken = None; what = Whole piece.now.step }) }
    {
        self.is_alone(piece)
    }

    /// Gives up what stood here before: the present object alone is kept, and it can be gone back to. It takes no
    /// memory.
    #[tactic(auto, using(crate::proofs::SeenObjects::present_seen))]
    pub fn settle(&mut self)
        ensures { self.new ≡ record self.old { objects = present self.old.objects ∷ [] } }
    {
        self.past.clear();
    }

    /// Goes back to where the mark was taken, since the inbox was settled last and not behind a place that was gone
    /// back to. It takes no memory.
    pub fn back(&mut self, mark: InboxMark)
        requires held { mark < length self.old.objects }
        ensures { self.new ≡ record self.old { objects = take (mark + 1) self.old.objects } }
    {
        while self.past.len() > mark.at {
            match self.past.pop() {
                Some(past) => go_back(&mut self.object, past),
                None => return,
            }
        }
    }

    // Another object stands here. There is room for one more change then, which `clear` may need.
    #[tactic(auto, using(crate::proofs::SeenObjects::was_seen))]
    fn push(&mut self, next: Object) -> Result<(), Memory>
        ensures ok { OnOk result (self.new ≡ record self.old { objects = self.old.objects ++ next ∷ [] }) }
        ensures err { OnErr result (self.new ≡ self.old) }
    {
        self.past.reserve(2)?;
        let old = mem::replace(&mut self.object, next);
        self.past.push_reserved(Past::Was(old));
        Ok(())
    }

    #[tactic(auto, using(crate::proofs::SeenObjects::present_seen, crate::proofs::SeenObjects::nothing_new))]
    pub(crate) fn hold(&mut self, next: Object) -> Result<(), Memory>
        ensures ok { OnOk result (self.new ≡ holding self.old next) }
        ensures err { OnErr result (self.new ≡ self.old) }
    {
        if !is_unfinished(&self.object) && !is_unfinished(&next) {
            return Ok(());
        }
        self.push(next)
    }

    /// The unfinished object stays.
    #[tactic(auto, using(crate::proofs::SeenObjects::same_seen, crate::proofs::SeenObjects::present_seen))]
    pub(crate) fn stay(&mut self) -> Result<(), Memory>
        ensures ok { OnOk result
            (self.new ≡ record self.old { objects = self.old.objects ++ present self.old.objects ∷ [] }) }
        ensures err { OnErr result (self.new ≡ self.old) }
    {
        self.past.reserve(2)?;
        self.past.push_reserved(Past::Same);
        Ok(())
    }

    /// The object that is being buffered gets more bytes, which are copied once; what stood here is had by cutting.
    #[tactic(auto, using(crate::proofs::SeenObjects::grew_seen, crate::proofs::SeenObjects::present_seen))]
    pub(crate) fn grow(&mut self, bytes: &[u8]) -> Result<(), Memory>
        ensures ok { OnOk result (self.new ≡ record self.old {
          objects = self.old.objects ++ extended (present self.old.objects) bytes.now ∷ [];
        }) }
        ensures err { OnErr result (self.new ≡ self.old) }
    {
        self.past.reserve(2)?;
        let length_before = extend_value(&mut self.object, bytes)?;
        self.past.push_reserved(Past::Grew(length_before));
        Ok(())
    }

    /// Drops what is unfinished, and answers the target of an object that was being buffered; none exactly where none
    /// was. After `Memory` all is as before.
    #[tactic(auto, using(crate::proofs::SeenObjects::present_seen))]
    pub fn quiet(&mut self) -> Result<Option<Bytes>, Memory>
        ensures target { IfOk result (λ target. target ≡ buffered_target (present self.old.objects)) }
        ensures ok { OnOk result (self.new ≡ holding self.old Nothing) }
        ensures err { OnErr result (self.new ≡ self.old) }
    {
        let target = buffered_target(self.alloc, &self.object)?;
        self.clear();
        Ok(target)
    }

    /// Drops what is unfinished. It takes no memory.
    #[tactic(auto, using(crate::proofs::SeenObjects::was_seen, crate::proofs::SeenObjects::present_seen, crate::proofs::SeenObjects::nothing_new))]
    pub fn clear(&mut self)
        ensures { self.new ≡ holding self.old Nothing }
    {
        if is_unfinished(&self.object) {
            let old = mem::replace(&mut self.object, Object::Nothing);
            self.past.push_reserved(Past::Was(old));
        }
    }

    /// Refuses with 500 what continues an object that was begun in an Atomic and is being buffered. After `Memory` all
    /// is as before.
    #[tactic(auto, using(crate::proofs::SeenObjects::present_seen))]
    pub fn skip_inside(&mut self) -> Result<(), Memory>
        ensures ok { OnOk result (self.new ≡ failed_inside self.old) }
        ensures err { OnErr result (self.new ≡ self.old) }
    {
        if !is_inside(&self.object) {
            return Ok(());
        }
        let next = given_up(self.alloc, &self.object, 500)?;
        self.hold(next)
    }

    /// Refuses with 500 what continues this piece, whatever stood here. After `Memory` all is as before.
    pub fn skip(&mut self, piece: &Piece) -> Result<(), Memory>
        ensures ok { OnOk result (self.new ≡ holding self.old (Skipping (key_of piece.now.step) 500)) }
        ensures err { OnErr result (self.new ≡ self.old) }
    {
        let key = key_of(self.alloc, &piece.step)?;
        self.hold(Object::Skipping(key, 500))
    }
}

fn is_inside(object: &Object) -> bool
    ensures { result ≡ is_buffering_inside object.now }
{
    match object {
        Object::Nothing => false,
        Object::Buffering(begun) => begun.key.in_atomic,
        Object::Skipping(_, _) => false,
    }
}
