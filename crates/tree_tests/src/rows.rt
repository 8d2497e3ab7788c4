// How many rows a tree needs for its nodes.
use dm_tree::laws::top_is_below;
use dm_tree::{NodeId, Tree};
use std::alloc::Global;

// The number of a node, which its Debug form tells.
fn number(alloc: Global, id: NodeId) -> Option<usize> {
    let text = format!(in alloc; "{id:?}").ok()?;
    let digits = text
        .as_str()
        .strip_prefix("NodeId { row: ")?
        .strip_suffix(" }")?;
    digits.parse::<usize>().ok()
}

// One more than the greatest number of a node that is in the tree: rows are numbered from 0, and a node has the number
// of its row.
pub(crate) fn rows_of(alloc: Global, tree: &Tree) -> Option<usize> {
    top_is_below();
    let root = tree.root();
    let mut greatest = 0;
    let mut next = Some(root);
    for _ in 0..tree.count() {
        let id = next?;
        greatest = number(alloc, id)?.max(greatest);
        next = tree.next_below(root, id, false);
    }
    greatest.checked_add(1)
}
