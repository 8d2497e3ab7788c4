// The open elements, and the tokens that they take.
ghost use Rattle.std.specs.Prelude.{◌≡◌, ◌+◌, ◌∷◌, [], None, Ok, Err, Bool, true, false, ℕ, length, OnOk, IfOk, IsOk};
ghost use Rattle.std.specs.Prelude.{option_map, List as ListOf};
ghost use Rattle.wbxml_tokens.specs.declared.token.Token.TheVariants.{Tag, End, Text, Opaque};
ghost use Rattle.syncml_shape.specs.Rows.{start, is_complete as may_end};
ghost use Rattle.syncml_grammar.specs.Machine.{Frame, root, step, on_kind, finished_parts};
ghost use Rattle.syncml_grammar.specs.Values.{holds_leaf};
ghost use Rattle.syncml_grammar.specs.Opens.{frame_of, frames_of, leaf_frame, with_open_leaf, StopsFor, GivesFrame};
ghost use Rattle.syncml_grammar.specs.Opens.{GivesFrames, parts_from_whole};

use crate::draft::WholeParts;
use crate::open::{Open, OpenLeaf, has_leaf};
use crate::put_node::put_node;
use crate::spare::Spares;
use dm_base::{List, Memory};
use std::alloc::Global;
use std::marker::Model;
use std::mem;
use syncml_shape::{Expected, Kind, tag_fault};
use wbxml_tables::Element;
use wbxml_tokens::{Reason, Stop};

/// The open elements with children, and the document below them.
#[derive(Drop)]
pub(crate) struct Nest {
    top: Open,
    below: List<Open>,
    spares: Spares,
}

impl Model for Nest {
    ghost use Rattle.std.specs.Prelude.{List};
    ghost use Rattle.syncml_grammar.specs.Machine.{Frame};
    ghost use Rattle.syncml_grammar.specs.Opens.{frames_of};

    ghost Value = { List Frame };

    ghost view = { λ n. frames_of n.top n.below };
}

// Has room for the open elements of most messages, so that the list need not grow.
fn make_room(opened: &mut List<Open>) -> Result<(), Memory>
    ensures { OnOk result (opened.new ≡ opened.old) }
{
    if opened.is_empty() {
        opened.reserve(8)?;
    }
    Ok(())
}

impl Nest {
    fn new(alloc: Global) -> Nest
        ensures { result ≡ root ∷ [] }
    {
        Nest {
            top: Open::document(),
            below: List::new(alloc),
            spares: Spares::new(alloc),
        }
    }

    // Opens a child with children.
    fn open(&mut self, element: Element, kind: Kind) -> Result<(), Memory>
        requires { holds_leaf kind ≡ false }
        ensures content { OnOk result (on_kind self.old element true kind ≡ Ok self.new) }
        ensures empty { OnOk result (on_kind self.old element false kind ≡ step self.new End) }
        ensures taken { IsOk (on_kind self.old element true kind) }
        ensures bare { may_end (start kind) ≡ true → IsOk (on_kind self.old element false kind) }
    {
        make_room(&mut self.below)?;
        self.below
            .push(mem::replace(&mut self.top, Open::document()))?;
        self.top.begin(&mut self.spares, element, kind)
    }

    // The tag, without content, of a child that may have children. Where it may not end so, it is refused before memory
    // is taken for it.
    fn bare(&mut self, element: Element, kind: Kind) -> Result<(), Stop>
        requires { holds_leaf kind ≡ false }
        ensures { GivesFrames result self.new (on_kind self.old element false kind) }
    {
        if !Expected::start(kind).is_complete() {
            return Err(Stop::Refused(Reason::Misplaced));
        }
        self.open(element, kind)?;
        self.end()
    }

    // The tag of a child with children.
    fn draft(&mut self, element: Element, kind: Kind, content: bool) -> Result<(), Stop>
        requires { holds_leaf kind ≡ false }
        ensures { GivesFrames result self.new (on_kind self.old element content kind) }
    {
        if !content {
            return self.bare(element, kind);
        }
        self.open(element, kind)?;
        Ok(())
    }

    // The tag of a child, which stands apart where it has no children of its own.
    fn child(
        &mut self,
        alloc: Global,
        leaf: &mut Option<OpenLeaf>,
        element: Element,
        kind: Kind,
        content: bool,
    ) -> Result<(), Stop>
        requires { leaf.old ≡ None }
        ensures { GivesFrames result (with_open_leaf leaf.new self.new) (on_kind self.old element content kind) }
    {
        if !has_leaf(kind) {
            return self.draft(element, kind, content);
        }
        let mut child = OpenLeaf::new(alloc, element, kind);
        if content {
            *leaf = Some(child);
            Ok(())
        } else {
            child.end_into(alloc, &mut self.top)
        }
    }

    // A tag in the innermost element.
    fn tag(
        &mut self,
        alloc: Global,
        leaf: &mut Option<OpenLeaf>,
        element: Element,
        content: bool,
    ) -> Result<(), Stop>
        requires { leaf.old ≡ None }
        ensures { GivesFrames result (with_open_leaf leaf.new self.new) (step self.old (Tag element content)) }
    {
        if let Some(reason) = tag_fault(self.top.element, element) {
            return Err(Stop::Refused(reason));
        }
        match self.top.progress.next(element) {
            None => Err(Stop::Refused(Reason::Misplaced)),
            Some(kind) => self.child(alloc, leaf, element, kind, content),
        }
    }

    // A piece of text in the innermost element.
    fn piece(&self) -> Result<(), Stop>
        ensures text { (bytes : ListOf ℕ) → GivesFrames result self.now (step self.now (Text bytes)) }
        ensures opaque { (bytes : ListOf ℕ) → GivesFrames result self.now (step self.now (Opaque bytes)) }
    {
        if self.top.progress.takes_text() {
            Ok(())
        } else {
            Err(Stop::Refused(Reason::Misplaced))
        }
    }

    fn into_parts(self) -> Option<WholeParts>
        ensures { option_map parts_from_whole result ≡ finished_parts self }
    {
        let Nest {
            mut top,
            below,
            spares: _,
        } = self;
        if below.is_empty() {
            top.take_parts()
        } else {
            None
        }
    }

    // The end of the innermost element.
    #[inline(always)]
    fn end(&mut self) -> Result<(), Stop>
        ensures { GivesFrames result self.new (step self.old End) }
    {
        let Some(element) = self.top.element else {
            return Err(Stop::Refused(Reason::Misplaced));
        };
        if !self.top.progress.is_complete() {
            return Err(Stop::Refused(Reason::Misplaced));
        }
        let Some(parent) = self.below.pop() else {
            return Err(Stop::Refused(Reason::Misplaced));
        };
        let child = mem::replace(&mut self.top, parent);
        put_node(&mut self.spares, &mut self.top.draft, element, child.draft)?;
        Ok(())
    }

    // The end of a child without children.
    #[inline(always)]
    fn end_leaf(&mut self, alloc: Global, leaf: &mut OpenLeaf) -> Result<(), Stop>
        ensures { GivesFrames result self.new (step (leaf_frame leaf.old ∷ self.old) End) }
    {
        leaf.end_into(alloc, &mut self.top)
    }
}

// Why a tag in an element without children is refused.
fn tag_in_leaf(leaf: &OpenLeaf, element: Element) -> Reason
    ensures { (frames : ListOf Frame) (content : Bool)
        → step (leaf_frame leaf.now ∷ frames) (Tag element content) ≡ Err result }
{
    match tag_fault(Some(leaf.element), element) {
        Some(reason) => reason,
        None => Reason::Misplaced,
    }
}

/// The open elements of a document, with what they hold so far. Before the first tag there is the document alone.
#[derive(Drop)]
pub(crate) struct Stack {
    alloc: Global,
    leaf: Option<OpenLeaf>,
    nest: Nest,
}

impl Model for Stack {
    ghost use Rattle.std.specs.Prelude.{List};
    ghost use Rattle.syncml_grammar.specs.Machine.{Frame};
    ghost use Rattle.syncml_grammar.specs.Opens.{with_open_leaf};

    ghost Value = { List Frame };

    ghost view = { λ s. with_open_leaf s.leaf s.nest };
}

impl Stack {
    /// The document alone.
    pub fn new(alloc: Global) -> Stack
        ensures { result ≡ root ∷ [] }
    {
        Stack {
            alloc,
            leaf: None,
            nest: Nest::new(alloc),
        }
    }

    /// Takes a tag.
    pub fn tag(&mut self, element: Element, content: bool) -> Result<(), Stop>
        ensures { GivesFrames result self.new (step self.old (Tag element content)) }
    {
        match &self.leaf {
            Some(leaf) => Err(Stop::Refused(tag_in_leaf(leaf, element))),
            None => self.nest.tag(self.alloc, &mut self.leaf, element, content),
        }
    }

    /// Takes an END.
    pub fn end(&mut self) -> Result<(), Stop>
        ensures { GivesFrames result self.new (step self.old End) }
    {
        match &mut self.leaf {
            Some(leaf) => {
                self.nest.end_leaf(self.alloc, leaf)?;
                self.leaf = None;
                Ok(())
            }
            None => self.nest.end(),
        }
    }

    fn take_piece(&mut self, bytes: &[u8]) -> Result<(), Stop>
        ensures text { GivesFrames result self.new (step self.old (Text bytes.now)) }
        ensures opaque { GivesFrames result self.new (step self.old (Opaque bytes.now)) }
    {
        match &mut self.leaf {
            Some(leaf) => leaf.push(bytes),
            None => self.nest.piece(),
        }
    }

    // What is answered of a piece for which there is no room.
    fn no_room(&self) -> Stop
        ensures text { (bytes : ListOf ℕ) → StopsFor result (step self.now (Text bytes)) }
        ensures opaque { (bytes : ListOf ℕ) → StopsFor result (step self.now (Opaque bytes)) }
    {
        let takes_text = match &self.leaf {
            Some(leaf) => leaf.takes_text(),
            None => self.nest.top.progress.takes_text(),
        };
        if takes_text {
            Stop::Memory
        } else {
            Stop::Refused(Reason::Misplaced)
        }
    }

    /// A piece of text, of at most so many bytes as there is room for.
    #[inline(always)]
    pub fn piece(&mut self, room: &mut usize, bytes: &[u8]) -> Result<(), Stop>
        ensures text { GivesFrames result self.new (step self.old (Text bytes.now)) }
        ensures opaque { GivesFrames result self.new (step self.old (Opaque bytes.now)) }
        ensures room { OnOk result (room.new + length bytes.now ≡ room.old) }
    {
        match room.checked_sub(bytes.len()) {
            None => Err(self.no_room()),
            Some(left) => {
                *room = left;
                self.take_piece(bytes)
            }
        }
    }

    /// The parts of the message, where the document is whole.
    pub fn into_parts(self) -> Option<WholeParts>
        ensures { option_map parts_from_whole result ≡ finished_parts self }
    {
        let Stack {
            alloc: _,
            leaf,
            nest,
        } = self;
        match leaf {
            Some(_leaf) => {
                drop(nest);
                None
            }
            None => nest.into_parts(),
        }
    }
}
