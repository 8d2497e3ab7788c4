// One reading of a document, in pieces.
ghost use Rattle.std.specs.Prelude.{◌≡◌, ◌<◌, OnOk, Ok as Fine, None as Nothing};
ghost use Rattle.wbxml_tokens.specs.Reading.{reading, refusal_of, refused_at_end};
ghost use Rattle.wbxml_tokens.specs.Taking.{taken_all};
ghost use Rattle.codec_bench.specs.Folding.{folding, FoldsMessage};

use crate::fold::Fold;
use std::alloc::Global;
use syncml_codec::{Decoder, decode};
use syncml_types::Message;
use wbxml_tokens::{FeedError, Reader, Tokens};

/// What reads a document.
#[derive(Clone, Copy, PartialEq, Eq)]
pub enum Way {
    /// The reader, which hands each token to the fold.
    Engine,
    /// The queue of tokens; each is taken as soon as it is there.
    Tokens,
    /// The decoder, which builds the message.
    Message,
}

// Refuses where the bytes so far are no whole document.
fn end(reader: &Reader) -> Result<(), FeedError>
    ensures { OnOk result (refused_at_end Nothing reader.now ≡ Nothing) }
{
    match reader.refusal_at_end() {
        Some(refusal) => Err(FeedError::Refused(refusal)),
        None => Ok(()),
    }
}

// Folds the tokens of a document that is read at once.
fn read_at_once(alloc: Global, bytes: &[u8], fold: &mut Fold) -> Result<(), FeedError>
    ensures whole { OnOk result (refusal_of bytes.now ≡ Nothing) }
    ensures folded { OnOk result (taken_all folding fold.old (reading bytes.now).tokens ≡ Fine fold.new) }
{
    let mut reader = Reader::new(alloc);
    reader.feed(bytes, fold)?;
    end(&reader)
}

// The same in pieces of this many bytes.
fn read_in_pieces(
    alloc: Global,
    bytes: &[u8],
    size: usize,
    fold: &mut Fold,
) -> Result<(), FeedError>
    requires { 0 < size }
{
    let mut reader = Reader::new(alloc);
    for piece in bytes.chunks(size) {
        reader.feed(piece, fold)?;
    }
    end(&reader)
}

// Takes the tokens that wait.
fn take_waiting(tokens: &mut Tokens, fold: &mut Fold) {
    for _ in 0..u64::MAX {
        match tokens.next() {
            Some(placed) => fold.add_token(&placed.token),
            None => break,
        }
    }
}

// The same through the queue of tokens.
fn read_by_tokens(
    alloc: Global,
    bytes: &[u8],
    size: usize,
    fold: &mut Fold,
) -> Result<(), FeedError>
    requires { 0 < size }
{
    let mut tokens = Tokens::new(alloc);
    for piece in bytes.chunks(size) {
        tokens.feed(piece)?;
        take_waiting(&mut tokens, fold);
    }
    match tokens.finish() {
        Ok(()) => Ok(()),
        Err(refusal) => Err(FeedError::Refused(refusal)),
    }
}

// The message of a document in pieces of this many bytes.
fn decode_in_pieces(alloc: Global, bytes: &[u8], size: usize) -> Result<Message, FeedError>
    requires { 0 < size }
{
    let mut decoder = Decoder::new(alloc);
    for piece in bytes.chunks(size) {
        // What a feed refuses, `finish` refuses too.
        let _ = decoder.feed(piece);
    }
    decoder.finish()
}

// Folds how many commands the message has that an answer gives.
fn fold_message(answer: &Result<Message, FeedError>, fold: &mut Fold) -> Result<(), FeedError>
    ensures { FoldsMessage result fold.old fold.new answer.now }
{
    match answer {
        Ok(message) => {
            fold.add(message.body().len() as u64);
            Ok(())
        }
        Err(error) => Err(*error),
    }
}

/// Reads a document once, in pieces of `size` bytes, and folds its tokens, or how many commands its message has.
pub fn turn(
    alloc: Global,
    way: Way,
    bytes: &[u8],
    size: usize,
    fold: &mut Fold,
) -> Result<(), FeedError>
    requires { 0 < size }
{
    match way {
        Way::Engine if bytes.len() <= size => read_at_once(alloc, bytes, fold),
        Way::Engine => read_in_pieces(alloc, bytes, size, fold),
        Way::Tokens => read_by_tokens(alloc, bytes, size, fold),
        Way::Message if bytes.len() <= size => fold_message(&decode(alloc, bytes), fold),
        Way::Message => fold_message(&decode_in_pieces(alloc, bytes, size), fold),
    }
}
