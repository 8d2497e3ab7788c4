// The words of the command line.

use crate::layout::Layout;
use crate::times::Span;

/// What is measured.
#[derive(Clone, Copy, PartialEq, Eq)]
pub enum Call {
    /// The tree is built, leaf by leaf.
    Build,
    /// Each leaf is found from the root.
    Find,
    /// The value of each leaf is set, and that is taken back.
    Set,
    /// Each leaf is taken out, and that is taken back.
    Detach,
    /// All nodes are gone through in the order of the tree text.
    Walk,
}

#[derive(Clone, Copy, PartialEq, Eq)]
pub struct Work {
    pub call: Call,
    pub span: Span,
    pub layout: Layout,
}

fn call_of(word: &str) -> Option<Call> {
    match word {
        "build" => Some(Call::Build),
        "find" => Some(Call::Find),
        "set" => Some(Call::Set),
        "detach" => Some(Call::Detach),
        "walk" => Some(Call::Walk),
        _ => None,
    }
}

// The word SECONDS, or xCOUNT for so many turns.
fn span_of(word: &str) -> Option<Span> {
    if let Some(count) = word.strip_prefix("x") {
        return count.parse::<u64>().ok().map(Span::Turns);
    }
    word.parse::<u64>().ok().map(Span::Seconds)
}

fn layout_of(shape: &str, order: &str, leaves: &str) -> Option<Layout> {
    let flat = match shape {
        "groups" => false,
        "flat" => true,
        _ => return None,
    };
    let shuffled = match order {
        "ordered" => false,
        "shuffled" => true,
        _ => return None,
    };
    Some(Layout {
        leaves: leaves.parse::<u32>().ok()?,
        flat,
        shuffled,
    })
}

/// The work that the words CALL SECONDS SHAPE ORDER LEAVES ask for.
pub fn work_of(call: &str, span: &str, shape: &str, order: &str, leaves: &str) -> Option<Work> {
    Some(Work {
        call: call_of(call)?,
        span: span_of(span)?,
        layout: layout_of(shape, order, leaves)?,
    })
}
