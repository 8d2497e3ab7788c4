// Open elements, and what ends them.
ghost use Rattle.std.specs.Prelude.{◌≡◌, ◌∷◌, [], true, false, OnOk, option_map};
ghost use Rattle.syncml_shape.specs.Rows.{takes_text as has_text};
ghost use Rattle.syncml_grammar.specs.Values.{holds_leaf};
ghost use Rattle.syncml_grammar.specs.Machine.{root, began, on_end, on_text, finished_parts};
ghost use Rattle.syncml_grammar.specs.Opens.{frame_of, leaf_frame, leaf_content, GivesFrame, parts_from_whole};

use crate::draft::{Draft, WholeParts};
use crate::leaf::{Leaf, new_leaf};
use crate::put_node::put_node;
use crate::put_simple::put_simple;
use crate::spare::Spares;
use dm_base::Memory;
use std::alloc::Global;
use std::mem;
use syncml_shape::rows::DOCUMENT;
use syncml_shape::{Expected, Kind};
use wbxml_tables::Element;
use wbxml_tokens::{Reason, Stop};

/// An open element with children. The document has no name. It is small, since what it holds stands in a box.
#[derive(Drop)]
pub struct Open {
    pub element: Option<Element>,
    pub kind: Kind,
    pub progress: Expected,
    pub draft: Draft,
}

/// An open element without children. It stands apart from those with children, which take no text.
#[derive(Drop)]
pub struct OpenLeaf {
    pub element: Element,
    pub kind: Kind,
    pub leaf: Leaf,
}

/// Whether elements of this kind have a text, a number or nothing, and no children.
pub(crate) fn has_leaf(kind: Kind) -> bool
    ensures { result ≡ holds_leaf kind }
{
    matches!(
        kind,
        Kind::Text | Kind::Bytes | Kind::Id | Kind::Code | Kind::Size | Kind::Flag
    )
}

impl OpenLeaf {
    pub(crate) fn new(alloc: Global, element: Element, kind: Kind) -> OpenLeaf
        requires { holds_leaf kind ≡ true }
        ensures { leaf_frame result ≡ began element kind }
    {
        OpenLeaf {
            element,
            kind,
            leaf: new_leaf(alloc, kind),
        }
    }

    pub(crate) fn takes_text(&self) -> bool
        ensures { result ≡ has_text (leaf_content self.now.kind) }
    {
        match self.kind {
            Kind::Flag => false,
            _ => true,
        }
    }

    /// Takes a piece of text.
    pub(crate) fn push(&mut self, piece: &[u8]) -> Result<(), Stop>
        ensures { GivesFrame result (leaf_frame self.new) (on_text (leaf_frame self.old) piece.now) }
    {
        if !self.takes_text() {
            return Err(Stop::Refused(Reason::Misplaced));
        }
        self.leaf.push(piece)?;
        Ok(())
    }

    // The element ends, and what it holds is put into its parent.
    pub(crate) fn end_into(&mut self, alloc: Global, parent: &mut Open) -> Result<(), Stop>
        ensures { GivesFrame result (frame_of parent.new) (on_end (leaf_frame self.old) (frame_of parent.old)) }
    {
        match self.leaf.close(alloc, self.kind) {
            Err(reason) => Err(Stop::Refused(reason)),
            Ok(simple) => {
                put_simple(&mut parent.draft, self.element, simple)?;
                Ok(())
            }
        }
    }
}

impl Open {
    // The document, before its SyncML.
    pub(crate) fn document() -> Open
        ensures { frame_of result ≡ root }
    {
        Open {
            element: None,
            kind: Kind::Message,
            progress: Expected::InOrder {
                came: false,
                rows: &DOCUMENT,
            },
            draft: Draft::Document,
        }
    }

    // Has it be a new element.
    #[inline(always)]
    pub(crate) fn begin(
        &mut self,
        spares: &mut Spares,
        element: Element,
        kind: Kind,
    ) -> Result<(), Memory>
        requires { holds_leaf kind ≡ false }
        ensures { OnOk result (frame_of self.new ≡ began element kind) }
    {
        self.element = Some(element);
        self.kind = kind;
        self.progress = Expected::start(kind);
        self.draft = spares.draft(kind, element)?;
        Ok(())
    }

    /// The parts of the message that a document holds, which are taken out of it.
    pub(crate) fn take_parts(&mut self) -> Option<WholeParts>
        ensures { option_map parts_from_whole result ≡ finished_parts (frame_of self.old ∷ []) }
    {
        if self.progress.is_complete() {
            mem::replace(&mut self.draft, Draft::Document).into_parts()
        } else {
            None
        }
    }
}
