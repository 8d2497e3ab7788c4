// What is told of a whole text.
ghost use Rattle.std.specs.Prelude.{◌≡◌, ◌<◌, ◌+◌, ◌++◌, ◌^◌, length, codes, true, Some, Ok, IfOk, IfErr, OnOk};
ghost use Rattle.std.specs.Fmt.{decimal};
ghost use Rattle.dm_base.specs.Lines.{line_feed};
ghost use Rattle.dm_job.specs.Texts.{segments};
ghost use Rattle.dm_start.specs.Start.{told_of};
ghost use Rattle.dm_tree.specs.Rows.{path_of, nodes, IsLive};
ghost use Rattle.dm_ddf.specs.Breaches.{first_breach};
ghost use Rattle.dm_ddf.specs.Refusals.{StopsAs};
ghost use Rattle.dm_ddf.specs.Texts as Spec;
ghost use Rattle.dm_ddf.specs.Texts.{GivesTold};
ghost use Rattle.dm_ddf.specs.Answered.{TellsText};

use crate::conforming::{Conformity, Why, conforms};
use crate::errors::DdfError;
use crate::lines::{DescribedText, StartedText, read_ddf, read_end, read_nothing, read_start};
use crate::making::make_tree;
use crate::rules::Ddf;
use dm_base::{Bytes, Memory};
use dm_decimals::put_decimal;
use dm_start::{Start, tree_text};
use dm_tree::{NodeId, Tree};
use std::alloc::Global;

impl Ddf {
    /// Reads the text of a description, whose lines are each ended by a line feed: `dm-ddf 1`, at most 4,096 rules, and
    /// `end`. It goes through the text once.
    ///
    /// `Bad` tells the first line that is refused, counted from 1, and the first reason that holds: `Long` for more
    /// than 8,400,000 bytes, `Cut` where the text ends inside the line or before it, `Word` for a first word that may
    /// not stand there, `Fields` for their number or form and for a 4,097th rule, `Tree` for a rule that may not stand
    /// where it comes, and `Extra` for a byte behind the `end` line.
    pub fn parse(alloc: Global, text: &[u8]) -> Result<Ddf, DdfError>
        ensures { GivesTold (Spec.ddf_of text.now) result }
    {
        let DescribedText { ddf, rest, number } = match read_ddf(alloc, text) {
            Ok(read) => read,
            Err(error) => return Err(error),
        };
        match read_nothing(rest, number) {
            Ok(()) => Ok(ddf),
            Err(error) => Err(error),
        }
    }
}

fn put_rule(out: &mut Bytes, word: &[u8], rule: u32) -> Result<(), Memory>
    ensures { OnOk result (out.new ≡ out.old ++ (word.now ++ decimal rule)) }
{
    out.extend(word)?;
    put_decimal(out, u64::from(rule))
}

fn put_why(out: &mut Bytes, why: Why) -> Result<(), Memory>
    ensures { OnOk result (out.new ≡ out.old ++ Spec.why_word why) }
{
    match why {
        Why::NoRule => out.extend(b"norule"),
        Why::Format => out.extend(b"format"),
        Why::Scope => out.extend(b"scope"),
        Why::Access => out.extend(b"access"),
        Why::Few { rule } => put_rule(out, b"few ", rule),
        Why::Many { rule } => put_rule(out, b"many ", rule),
    }
}

fn put_breach(out: &mut Bytes, tree: &Tree, node: NodeId, why: Why) -> Result<(), Memory>
    requires { IsLive tree.now.rows node }
    ensures { OnOk result (out.new ≡ out.old ++ Spec.verdict_text (Some (path_of tree.now.rows node, why))) }
{
    out.extend(b"breaks ")?;
    tree.print_path(node, out)?;
    out.push(b' ')?;
    put_why(out, why)
}

// Whether a tree conforms, or what breaks the description.
fn put_verdict(out: &mut Bytes, tree: &Tree, ddf: &Ddf) -> Result<(), Memory>
    ensures { OnOk result (out.new
        ≡ out.old ++ Spec.verdict_text (first_breach (nodes tree.now.rows) ddf.now.rules)) }
{
    match conforms(tree, ddf) {
        Conformity::Yes => out.extend(b"conforms"),
        Conformity::Breaks { node, why } => put_breach(out, tree, node, why),
    }
}

// The same, and the last line.
fn verdict_text(alloc: Global, tree: &Tree, ddf: &Ddf) -> Result<Bytes, Memory>
    ensures { IfOk result (λ out. out
        ≡ Spec.verdict_text (first_breach (nodes tree.now.rows) ddf.now.rules) ++ line_feed ++ codes "done" ++
        line_feed) }
{
    let mut out = Bytes::new(alloc);
    put_verdict(&mut out, tree, ddf)?;
    out.extend(b"\ndone\n")?;
    Ok(out)
}

// Reads `end`, behind which nothing may stand.
fn read_ending(text: &[u8], line: u64) -> Result<(), DdfError>
    requires { line + length text.now < 2 ^ 64 }
    ensures ok { OnOk result (Spec.ending_from line (segments text.now) ≡ Ok true) }
    ensures err { IfErr result (StopsAs (Spec.ending_from line (segments text.now))) }
{
    let behind = match read_end(text, line) {
        Ok(behind) => behind,
        Err(error) => return Err(error),
    };
    match read_nothing(behind, line + 1) {
        Ok(()) => Ok(()),
        Err(error) => Err(error),
    }
}

// Reads the start section of a trace, and `end`.
fn read_tree(alloc: Global, text: &[u8], first: u64) -> Result<Start, DdfError>
    requires { first + length text.now < 2 ^ 64 }
    ensures ok { IfOk result (λ start. Spec.setup_from first (segments text.now) ≡ Ok (told_of start)) }
    ensures err { IfErr result (StopsAs (Spec.setup_from first (segments text.now))) }
{
    let StartedText {
        start,
        rest,
        number,
    } = match read_start(alloc, text, first) {
        Ok(read) => read,
        Err(error) => return Err(error),
    };
    match read_ending(rest, number) {
        Ok(()) => Ok(start),
        Err(error) => Err(error),
    }
}

fn behind_ddf(alloc: Global, ddf: &Ddf, text: &[u8], first: u64) -> Result<Bytes, DdfError>
    requires { first + length text.now < 2 ^ 64 }
    ensures { TellsText (Spec.behind_ddf (ddf.now, first, segments text.now)) result }
{
    let start = match read_tree(alloc, text, first) {
        Ok(start) => start,
        Err(error) => return Err(error),
    };
    match verdict_text(alloc, &start.tree, ddf) {
        Ok(out) => Ok(out),
        Err(_) => Err(DdfError::Memory),
    }
}

/// What `conform` writes for a text.
pub(crate) fn conform_text(alloc: Global, text: &[u8]) -> Result<Bytes, DdfError>
    ensures { TellsText (Spec.conform_of text.now) result }
{
    match read_ddf(alloc, text) {
        Ok(DescribedText { ddf, rest, number }) => behind_ddf(alloc, &ddf, rest, number),
        Err(error) => Err(error),
    }
}

// The text of the tree that is asked for, and the last line.
fn asked_text(alloc: Global, ddf: &Ddf) -> Result<Bytes, Memory>
    ensures { IfOk result (λ out. out ≡ Spec.asked_text ddf.now ++ codes "done" ++ line_feed) }
{
    let tree = make_tree(alloc, ddf)?;
    let mut out = tree_text(alloc, &tree, 1)?;
    out.extend(b"done\n")?;
    Ok(out)
}

/// What `make` writes for a text.
pub(crate) fn make_text(alloc: Global, text: &[u8]) -> Result<Bytes, DdfError>
    ensures { TellsText (Spec.make_of text.now) result }
{
    let ddf = match Ddf::parse(alloc, text) {
        Ok(ddf) => ddf,
        Err(error) => return Err(error),
    };
    match asked_text(alloc, &ddf) {
        Ok(out) => Ok(out),
        Err(_) => Err(DdfError::Memory),
    }
}
