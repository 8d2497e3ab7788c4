// What a setter puts into a node.

use crate::nodes::Value;
use dm_acl::Acl;
use dm_base::Bytes;

/// What is set of a node, with what it will hold. `Bytes` is a value of which Format and Type stay.
#[derive(Drop)]
pub(crate) enum Field {
    Value(Value),
    Bytes(Bytes),
    Acl(Option<Acl>),
    Title(Bytes),
}
