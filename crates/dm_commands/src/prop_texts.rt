// The texts of properties.
ghost use Rattle.std.specs.Prelude.{◌≡◌, [], IfOk, codes, unwrap_or};
ghost use Rattle.std.specs.Option.{option_copied, option_map_or};
ghost use Rattle.dm_acl.specs.Grammar.{printed as printed_acl};
ghost use Rattle.dm_tree.specs.Nodes.{Path as Names, last_name};
ghost use Rattle.dm_tree.specs.Views.{shown};
ghost use Rattle.dm_commands.specs.Finding.{prop_value as text_of};

use crate::values::decimal_text;
use dm_acl::Acl;
use dm_base::{Bytes, Memory};
use dm_tree::View;
use dm_uri::{Name, Prop};
use std::alloc::Global;

fn acl_text(alloc: Global, acl: Option<&Acl>) -> Result<Bytes, Memory>
    ensures { IfOk result (λ text. text ≡ option_map_or printed_acl (option_copied acl.entry) []) }
{
    match acl {
        None => Ok(Bytes::new(alloc)),
        Some(acl) => match acl.print(alloc) {
            Ok(text) => Ok(text),
            Err(_) => Err(Memory),
        },
    }
}

// The root has no name, and is written `.`.
fn name_text(alloc: Global, name: Option<&Name>) -> Result<Bytes, Memory>
    ensures { IfOk result (λ text. text ≡ unwrap_or (option_copied name.entry) (codes ".")) }
{
    match name {
        None => Bytes::of_slice(alloc, b"."),
        Some(name) => Bytes::of_slice(alloc, name.as_slice()),
    }
}

/// The text of a property.
pub(crate) fn prop_value(alloc: Global, view: View, prop: Prop) -> Result<Bytes, Memory>
    ensures { (path : Names) → last_name path ≡ option_copied view.entry.name
        → IfOk result (λ text. text ≡ text_of path (shown view.entry) prop) }
{
    match prop {
        Prop::Acl => acl_text(alloc, view.acl),
        Prop::Format => view.value.format.copy(alloc),
        Prop::Name => name_text(alloc, view.name),
        Prop::Size => decimal_text(alloc, view.value.bytes.len() as u64),
        Prop::Media => view.value.media.copy(alloc),
        Prop::Title => view.title.copy(alloc),
        Prop::VerNo => decimal_text(alloc, view.verno as u64),
        Prop::TStamp => Bytes::of_slice(alloc, view.stamp.bytes.as_slice()),
    }
}
