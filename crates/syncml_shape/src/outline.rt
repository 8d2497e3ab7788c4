// The open elements of a document, over its tokens.
ghost use Rattle.std.specs.Prelude.{◌≡◌, ◌↔◌, [], ◌∷◌, ◌++◌, List as ListOf, Err, IsTrue, OnOk, OnErr, IfOk};
ghost use Rattle.wbxml_tokens.specs.declared.token.Token.TheVariants.{Tag, End, Text};
ghost use Rattle.wbxml_tokens.specs.declared.reason.Reason.{Reason as Why};
ghost use Rattle.wbxml_tokens.specs.declared.reason.Stop.TheVariants.{Refused};
ghost use Rattle.wbxml_tokens.specs.declared.token.Token.{Token as Piece};
ghost use Rattle.syncml_shape.specs.declared.outline.ShapeVerdict.{ShapeVerdict as Judgement};
ghost use Rattle.syncml_shape.specs.Forest.{Forest};
ghost use Rattle.syncml_shape.specs.Shape.{HasShape};
ghost use Rattle.syncml_shape.specs.Faults.{IsRefused};
ghost use Rattle.syncml_shape.specs.Machine.{root, step, with_known_tag, may_end as may_end_here};
ghost use Rattle.syncml_shape.specs.Outline.{frame_of, HasTaken, Judges, Opens, GivesStep, verdict_of};

use crate::fault::tag_fault;
use crate::progress::Expected;
use crate::rows::DOCUMENT;
use dm_base::{List, Memory};
use std::alloc::Global;
use std::marker::Model;
use wbxml_tables::Element;
use wbxml_tokens::{Reason, Stop, Token};

// An open element, and what may still come in it. The document has no element.
#[derive(Clone, Copy, Debug)]
struct Entry {
    element: Option<Element>,
    progress: Expected,
}

/// The open elements of a document behind the tokens that were taken. Behind an error it is as before.
#[derive(Drop)]
pub struct Outline {
    top: Entry,
    below: List<Entry>,
}

impl Model for Outline {
    ghost use Rattle.std.specs.Prelude.{List};
    ghost use Rattle.syncml_shape.specs.Machine.{Frame};
    ghost use Rattle.syncml_shape.specs.Outline.{frames_of};

    ghost Value = { List Frame };

    ghost view = { λ o. frames_of o.top o.below };
}

impl Outline {
    /// No token was taken.
    pub fn new(alloc: Global) -> Outline
        ensures state { result ≡ root ∷ [] }
        ensures taken { HasTaken result [] }
    {
        Outline {
            top: Entry {
                element: None,
                progress: Expected::InOrder {
                    came: false,
                    rows: &DOCUMENT,
                },
            },
            below: List::new(alloc),
        }
    }

    // Opens a child of the innermost element, which is then as given.
    fn push(&mut self, parent: Entry, child: Entry) -> Result<(), Stop>
        ensures opens { Opens result self.old self.new (frame_of parent) (frame_of child) }
        ensures err { OnErr result (self.new ≡ self.old) }
    {
        self.below.push(parent)?;
        self.top = child;
        Ok(())
    }

    fn may_end(&self) -> bool
        ensures { result ≡ may_end_here self.now }
    {
        self.below.is_empty() && self.top.progress.is_complete()
    }

    /// Whether the tokens that were taken are a whole document.
    pub fn is_whole(&self) -> bool
        ensures value { result ≡ may_end_here self.now }
        ensures shape { (tokens : ListOf Piece) → HasTaken self.now tokens
            → IsTrue result ↔ ((tree : Forest) × HasShape tokens tree) }
    {
        self.may_end()
    }

    // A tag that isn't refused for its name.
    fn child(&mut self, element: Element, content: bool) -> Result<(), Stop>
        ensures step { GivesStep result self.new (with_known_tag self.old element content) }
        ensures err { OnErr result (self.new ≡ self.old) }
    {
        let mut parent = self.top;
        let Some(kind) = parent.progress.next(element) else {
            return Err(Stop::Refused(Reason::Misplaced));
        };
        let progress = Expected::start(kind);
        if content {
            return self.push(
                parent,
                Entry {
                    element: Some(element),
                    progress,
                },
            );
        }
        if !progress.is_complete() {
            return Err(Stop::Refused(Reason::Misplaced));
        }
        self.top = parent;
        Ok(())
    }

    fn end(&mut self) -> Result<(), Stop>
        ensures step { GivesStep result self.new (step self.old End) }
        ensures err { OnErr result (self.new ≡ self.old) }
    {
        if !self.top.progress.is_complete() {
            return Err(Stop::Refused(Reason::Misplaced));
        }
        match self.below.pop() {
            None => Err(Stop::Refused(Reason::Misplaced)),
            Some(parent) => {
                self.top = parent;
                Ok(())
            }
        }
    }

    fn piece(&mut self) -> Result<(), Stop>
        ensures step { GivesStep result self.new (step self.old (Text [])) }
        ensures err { OnErr result (self.new ≡ self.old) }
    {
        if self.top.progress.takes_text() {
            Ok(())
        } else {
            Err(Stop::Refused(Reason::Misplaced))
        }
    }

    fn tag(&mut self, element: Element, content: bool) -> Result<(), Stop>
        ensures step { GivesStep result self.new (step self.old (Tag element content)) }
        ensures err { OnErr result (self.new ≡ self.old) }
    {
        match tag_fault(self.top.element, element) {
            Some(reason) => Err(Stop::Refused(reason)),
            None => self.child(element, content),
        }
    }

    fn go_on(&mut self, token: &Token) -> Result<(), Stop>
        ensures step { GivesStep result self.new (step self.old token.now) }
        ensures err { OnErr result (self.new ≡ self.old) }
    {
        match token {
            Token::Tag { element, content } => self.tag(*element, *content),
            Token::End => self.end(),
            Token::Text(_) => self.piece(),
            Token::Opaque(_) => self.piece(),
        }
    }

    /// Takes the next token. It is refused exactly where the tokens before it begin a document and none begins with it
    /// too: as Leftout or Nested for its name and its parent's, else as Misplaced. `Memory` comes only where it isn't
    /// refused.
    pub fn take(&mut self, token: &Token) -> Result<(), Stop>
        ensures step { GivesStep result self.new (step self.old token.now) }
        ensures err { OnErr result (self.new ≡ self.old) }
        ensures taken { (before : ListOf Piece) → HasTaken self.old before
            → OnOk result (HasTaken self.new (before ++ token.now ∷ [])) }
        ensures refused { (before : ListOf Piece) (reason : Why) → HasTaken self.old before
            → (result ≡ Err (Refused reason)) ↔ IsRefused before token.now reason }
    {
        self.go_on(token)
    }
}

/// What tokens are.
#[derive(Clone, Copy, Debug, PartialEq, Eq)]
pub enum ShapeVerdict {
    /// A document.
    Whole,
    /// The beginning of one.
    Unfinished,
    /// The token at this place, counted from 0, is the first that is refused.
    Refused { at: usize, reason: Reason },
}

fn judged(alloc: Global, tokens: &[Token]) -> Result<ShapeVerdict, Memory>
    ensures { IfOk result (λ v. v ≡ verdict_of tokens.now) }
{
    let mut outline = Outline::new(alloc);
    for (at, token) in tokens.iter().enumerate() {
        match outline.go_on(token) {
            Ok(()) => {}
            Err(Stop::Memory) => return Err(Memory),
            Err(Stop::Refused(reason)) => return Ok(ShapeVerdict::Refused { at, reason }),
        }
    }
    if outline.may_end() {
        Ok(ShapeVerdict::Whole)
    } else {
        Ok(ShapeVerdict::Unfinished)
    }
}

/// Says of tokens whether they are a document, begin one, or which is refused first and why. Exactly one of these is
/// so.
pub fn judge(alloc: Global, tokens: &[Token]) -> Result<ShapeVerdict, Memory>
    ensures exact { IfOk result (λ verdict. Judges tokens.now verdict) }
    ensures only { (other : Judgement) → Judges tokens.now other → IfOk result (λ verdict. verdict ≡ other) }
{
    judged(alloc, tokens)
}
