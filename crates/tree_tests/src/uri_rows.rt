// Texts of names and of URIs in pairs, and their order.
use std::cmp::Ordering;

// Two texts, whether they are read as the same, and the order of what is read.
pub(crate) struct OrderRow {
    pub left: &'static [u8],
    pub right: &'static [u8],
    pub are_same: bool,
    pub order: Ordering,
}

pub(crate) const NAME_ORDERS: [OrderRow; 3] = [
    OrderRow {
        left: b"a",
        right: b"a!",
        are_same: false,
        order: Ordering::Less,
    },
    OrderRow {
        left: b"b",
        right: b"B",
        are_same: false,
        order: Ordering::Greater,
    },
    OrderRow {
        left: b"ab",
        right: b"ab",
        are_same: true,
        order: Ordering::Equal,
    },
];

pub(crate) const PATH_ORDERS: [OrderRow; 5] = [
    OrderRow {
        left: b"a",
        right: b"./a/b",
        are_same: false,
        order: Ordering::Less,
    },
    OrderRow {
        left: b"a/b",
        right: b"a!",
        are_same: false,
        order: Ordering::Less,
    },
    OrderRow {
        left: b"a!",
        right: b"a",
        are_same: false,
        order: Ordering::Greater,
    },
    OrderRow {
        left: b".",
        right: b"a",
        are_same: false,
        order: Ordering::Less,
    },
    OrderRow {
        left: b"a/b",
        right: b"./a/b",
        are_same: true,
        order: Ordering::Equal,
    },
];
