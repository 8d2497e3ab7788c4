// How long edits without an engine take.
ghost use Rattle.std.specs.Prelude.{IfOk, OnOk};
ghost use Rattle.dm_undo.specs.Sound.{IsSound};

use crate::bare::{Bare, edit_all, find_all, settle};
use crate::fault::{Fault, told};
use crate::leaves::LEAVES;
use crate::spans::{NO_TIMES, Span, is_over, tell};
use std::io;
use std::time::Instant;

/// What is done again and again.
#[derive(Clone, Copy, PartialEq, Eq)]
pub enum What {
    /// Each leaf is found.
    Find,
    /// Each leaf is found and gets another value, which a journal notes.
    Edit,
}

fn new_bare(rt: &HostRuntime) -> io::Result<Bare>
    ensures { IfOk result (λ b. IsSound b.journal.entries b.tree.rows) }
{
    match Bare::new(rt.alloc()) {
        Ok(bare) => Ok(bare),
        Err(fault) => Err(told(fault)),
    }
}

fn turn(rt: &HostRuntime, bare: &mut Bare, what: What) -> Result<(), Fault>
    requires { IsSound bare.old.journal.entries bare.old.tree.rows }
    ensures { OnOk result (IsSound bare.new.journal.entries bare.new.tree.rows) }
{
    let paths = bare.paths.as_slice();
    match what {
        What::Find => {
            if !find_all(&bare.tree, paths) {
                return Err(Fault::Lost);
            }
            Ok(())
        }
        What::Edit => edit_all(
            rt.alloc(),
            &mut bare.tree,
            &mut bare.journal,
            paths,
            &bare.sample,
        ),
    }
}

// The time of one turn. What it noted is dropped behind it.
fn time_of(rt: &HostRuntime, bare: &mut Bare, what: What) -> io::Result<u128>
    requires { IsSound bare.old.journal.entries bare.old.tree.rows }
    ensures { OnOk result (IsSound bare.new.journal.entries bare.new.tree.rows) }
{
    let start = Instant::now(rt)?;
    match turn(rt, bare, what) {
        Ok(()) => {}
        Err(fault) => return Err(told(fault)),
    }
    let time = start.elapsed(rt)?.as_nanos();
    settle(&mut bare.tree, &mut bare.journal);
    Ok(time)
}

/// Tells how long one of so many takes.
pub fn measure_bare(rt: &HostRuntime, what: What, span: Span) -> io::Result<()> {
    let mut bare = new_bare(rt)?;
    let mut times = NO_TIMES;
    for _ in 0..u64::MAX {
        if is_over(span, times) {
            break;
        }
        times = times.and(time_of(rt, &mut bare, what)?);
    }
    tell(rt, "step", times, u64::from(LEAVES))
}
