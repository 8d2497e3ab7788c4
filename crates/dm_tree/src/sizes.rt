// How many rows lie at and below each row. Where a row is put in or taken out, only those above it change.
ghost use Rattle.std.specs.Prelude.{◌≡◌, ◌<◌, true, false, length};
ghost use Rattle.dm_tree.specs.Rows.{row_at, IsShaped};
ghost use Rattle.dm_tree.specs.Edits.{attached_as};
ghost use Rattle.dm_tree.specs.Index.{IsSized};

use crate::rows::Row;

// A row has been put in: those above it have as many more rows below them as it has.
pub(crate) fn count_in(rows: &[Row], sizes: &mut Vec<u32>, id: u32)
    requires shaped { IsShaped rows.now }
    requires inside { id < length rows.now }
    requires attached { (row_at rows.now id).attached ≡ true }
    requires sizes { IsSized (attached_as rows.now id false) sizes.old.items }
    ensures { IsSized rows.now sizes.new.items }
{
    let more = sizes[id as usize];
    let mut at = rows[id as usize].parent;
    loop {
        sizes[at as usize] += more;
        if !rows[at as usize].attached {
            return;
        }
        at = rows[at as usize].parent;
    }
}

// A row has been taken out: those above it have as many fewer.
pub(crate) fn count_out(rows: &[Row], sizes: &mut Vec<u32>, id: u32)
    requires shaped { IsShaped rows.now }
    requires inside { id < length rows.now }
    requires below_root { 0 < id }
    requires out { (row_at rows.now id).attached ≡ false }
    requires before { IsShaped (attached_as rows.now id true) }
    requires sizes { IsSized (attached_as rows.now id true) sizes.old.items }
    ensures { IsSized rows.now sizes.new.items }
{
    let fewer = sizes[id as usize];
    let mut at = rows[id as usize].parent;
    loop {
        sizes[at as usize] -= fewer;
        if !rows[at as usize].attached {
            return;
        }
        at = rows[at as usize].parent;
    }
}
