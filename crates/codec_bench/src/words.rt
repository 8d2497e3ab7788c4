// The words of the command line.
ghost use Rattle.std.specs.Prelude.{◌≡◌, ◌<◌, IfSome};

use crate::turn::Way;

/// How long something is done again and again.
#[derive(Clone, Copy, PartialEq, Eq)]
pub enum Span {
    Seconds(u64),
    Turns(u64),
}

/// What is to be measured: the size of the pieces, or None for the whole document at once.
#[derive(Clone, Copy, PartialEq, Eq)]
pub struct Work {
    pub span: Span,
    pub size: Option<usize>,
    pub way: Way,
}

/// The word SECONDS, or xCOUNT for so many turns.
pub fn span_of(word: &str) -> Option<Span> {
    if let Some(count) = word.strip_prefix("x") {
        return count.parse::<u64>().ok().map(Span::Turns);
    }
    word.parse::<u64>().ok().map(Span::Seconds)
}

fn way_of(word: &str) -> Option<Way> {
    match word {
        "engine" => Some(Way::Engine),
        "tokens" => Some(Way::Tokens),
        "message" => Some(Way::Message),
        _ => None,
    }
}

/// The work that the words SECONDS PIECE READER ask for.
pub fn work_of(span: &str, piece: &str, way: &str) -> Option<Work> {
    let span = span_of(span)?;
    let way = way_of(way)?;
    if piece == "whole" {
        return Some(Work {
            span,
            size: None,
            way,
        });
    }
    let size = piece.parse::<usize>().ok()?;
    Some(Work {
        span,
        size: Some(size),
        way,
    })
}
