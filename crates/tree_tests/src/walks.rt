// From one node to the next ones, and to the one whose access list decides, on the tree of a few nodes.
use crate::asserts::assert_none_wrong;
use crate::trees::{at, grown};
use dm_acl::Right;
use dm_tree::Tree;
use std::alloc::Global;

// From a node, what is the first below it, what comes beside it, and what comes behind all that stand below it.
struct Step {
    uri: &'static [u8],
    // The empty text for none.
    child: &'static [u8],
    sibling: &'static [u8],
    past: &'static [u8],
}

const STEPS: [Step; 7] = [
    Step {
        uri: b".",
        child: b"./P",
        sibling: b"",
        past: b"",
    },
    Step {
        uri: b"./P",
        child: b"./P/x",
        sibling: b"./T",
        past: b"./T",
    },
    Step {
        uri: b"./P/x",
        child: b"",
        sibling: b"",
        past: b"./T",
    },
    Step {
        uri: b"./T/B",
        child: b"./T/B/c",
        sibling: b"./T/a",
        past: b"./T/a",
    },
    Step {
        uri: b"./T/B/c",
        child: b"",
        sibling: b"",
        past: b"./T/a",
    },
    Step {
        uri: b"./T/a",
        child: b"",
        sibling: b"./T/b",
        past: b"./T/b",
    },
    Step {
        uri: b"./U",
        child: b"",
        sibling: b"",
        past: b"",
    },
];

fn is_step(alloc: Global, tree: &Tree, step: &Step) -> Option<bool> {
    let id = at(alloc, tree, step.uri)?;
    let child = tree.first_child(id) == at(alloc, tree, step.child);
    let sibling = tree.next_sibling(id) == at(alloc, tree, step.sibling);
    let past = tree.next_below(tree.root(), id, true) == at(alloc, tree, step.past);
    Some(child && sibling && past)
}

fn wrong_step(alloc: Global, tree: &Tree) -> Option<&'static [u8]> {
    for step in &STEPS {
        if is_step(alloc, tree, step) != Some(true) {
            return Some(step.uri);
        }
    }
    None
}

#[test]
fn each_node_leads_on(rt: HostRuntime) {
    let alloc = rt.alloc();
    if let Some(tree) = grown(alloc) {
        assert_none_wrong(&rt, wrong_step(alloc, &tree));
    }
}

// A node, and the one whose access list decides on a right there.
struct Decided {
    uri: &'static [u8],
    right: Right,
    // The empty text for none.
    by: &'static [u8],
}

#[rattlefmt::skip]
const DECIDED: [Decided; 5] = [
    Decided { uri: b"./P/x", right: Right::Get, by: b"./P" },
    Decided { uri: b"./P/x", right: Right::Add, by: b"." },
    Decided { uri: b"./T/a", right: Right::Replace, by: b"./T/a" },
    Decided { uri: b"./T/b", right: Right::Replace, by: b"" },
    Decided { uri: b"./T/B/c", right: Right::Exec, by: b"." },
];

fn wrong_decision(alloc: Global, tree: &Tree) -> Option<&'static [u8]> {
    for row in &DECIDED {
        match at(alloc, tree, row.uri) {
            Some(id) if tree.effective(id, row.right) == at(alloc, tree, row.by) => {}
            _ => return Some(row.uri),
        }
    }
    None
}

#[test]
fn the_nearest_list_decides(rt: HostRuntime) {
    let alloc = rt.alloc();
    if let Some(tree) = grown(alloc) {
        assert_none_wrong(&rt, wrong_decision(alloc, &tree));
    }
}
