// Boxes of elements that have ended, which the next of their kind takes.
ghost use Rattle.std.specs.Prelude.{◌≡◌, IfOk};
ghost use Rattle.syncml_grammar.specs.Drafts.{fresh_draft};

use crate::draft::{Draft, verb_named};
use crate::renew::{
    first_body, first_cred, first_header, first_message, renewed_alert, renewed_block,
    renewed_item, renewed_loc, renewed_meta, renewed_plain, renewed_results, renewed_status,
};
use dm_base::{Boxed, List, Memory};
use std::alloc::Global;
use syncml_shape::Kind;
use syncml_types::{
    AlertCmd, Block, Item, Loc, Member, Meta, Plain, ResultsCmd, SeqMember, StatusCmd,
};
use wbxml_tables::Element;

/// The boxes of elements that have ended, with anything in them. No more elements of a kind are open at once than have
/// places here, so that no element takes memory but for what the message keeps, the first of each kind aside. The box
/// of a Meta stays in the message; one is left over where a MetInf, or the Meta of a Chal, takes its parent's place,
/// and of two that are left over in a row one is given back.
#[derive(Drop)]
pub(crate) struct Spares {
    pub(crate) alloc: Global,
    pub(crate) plain: Option<Boxed<Plain>>,
    pub(crate) alert: Option<Boxed<AlertCmd>>,
    pub(crate) atomic: Option<Boxed<Block<Member>>>,
    pub(crate) sequence: Option<Boxed<Block<SeqMember>>>,
    pub(crate) status: Option<Boxed<StatusCmd>>,
    pub(crate) results: Option<Boxed<ResultsCmd>>,
    pub(crate) item: Option<Boxed<Item>>,
    pub(crate) loc: Option<Boxed<Loc>>,
    pub(crate) meta: Option<Boxed<Meta>>,
    // The box of the body, kept until the message is finished. The list that holds it is taken behind nearly all of the
    // message and given back before it, so that the heap's end stays in use: glibc else gives its pages back to the
    // kernel with each large message, and the kernel clears them anew for the next, which takes up to a quarter of the
    // time.
    pub(crate) ended: List<Draft>,
}

impl Spares {
    pub(crate) fn new(alloc: Global) -> Spares {
        Spares {
            alloc,
            plain: None,
            alert: None,
            atomic: None,
            sequence: None,
            status: None,
            results: None,
            item: None,
            loc: None,
            meta: None,
            ended: List::new(alloc),
        }
    }

    /// What an element with children holds before the first of them.
    pub(crate) fn draft(&mut self, kind: Kind, element: Element) -> Result<Draft, Memory>
        ensures { IfOk result (λ d. d ≡ fresh_draft kind element) }
    {
        let alloc = self.alloc;
        Ok(match kind {
            Kind::Message => Draft::Message(first_message(alloc)?),
            Kind::Header => Draft::Header(first_header(alloc)?),
            Kind::Body => Draft::Body(first_body(alloc)?),
            Kind::Plain | Kind::Exec => {
                Draft::Plain(renewed_plain(alloc, self.plain.take(), verb_named(element))?)
            }
            Kind::Alert => Draft::Alert(renewed_alert(alloc, self.alert.take())?),
            Kind::Atomic => Draft::Atomic(renewed_block(alloc, self.atomic.take())?),
            Kind::Sequence => Draft::Sequence(renewed_block(alloc, self.sequence.take())?),
            Kind::Status => Draft::Status(renewed_status(alloc, self.status.take())?),
            Kind::Results => Draft::Results(renewed_results(alloc, self.results.take())?),
            Kind::Item => Draft::Item(renewed_item(alloc, self.item.take())?),
            Kind::Loc => Draft::Loc(renewed_loc(alloc, self.loc.take())?),
            Kind::Cred => Draft::Cred(first_cred(alloc)?),
            Kind::Chal => Draft::Chal(renewed_meta(alloc, self.meta.take())?),
            _ => Draft::Meta(renewed_meta(alloc, self.meta.take())?),
        })
    }
}
