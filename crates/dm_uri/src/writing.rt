// The one written form.
ghost use Rattle.std.specs.Prelude.{◌≡◌, ◌≤◌, ◌++◌, Ok, IfOk, IfErr, OnOk, length};
ghost use Rattle.dm_uri.specs.Names.{printed_path};
ghost use Rattle.dm_uri.specs.Grammar.{prop_text, query_text, printed};
ghost use Rattle.dm_uri.specs.Reading.{parse_of};
ghost use Rattle.dm_uri.specs.declared.uri.UriError.TheVariants as error;

use crate::name::Name;
use crate::uri::{Prop, Query, Uri, UriError};
use dm_base::Memory;
use std::alloc::Global;

fn prop_text(prop: Prop) -> &'static [u8]
    ensures { result.now ≡ prop_text prop }
{
    match prop {
        Prop::Acl => b"?prop=ACL",
        Prop::Format => b"?prop=Format",
        Prop::Name => b"?prop=Name",
        Prop::Size => b"?prop=Size",
        Prop::Media => b"?prop=Type",
        Prop::Title => b"?prop=Title",
        Prop::VerNo => b"?prop=VerNo",
        Prop::TStamp => b"?prop=TStamp",
    }
}

pub(crate) fn query_text(query: Query) -> &'static [u8]
    ensures { result.now ≡ query_text query }
{
    match query {
        Query::Plain => b"",
        Query::Prop(prop) => prop_text(prop),
        Query::Struct => b"?list=Struct",
        Query::StructData => b"?list=StructData",
    }
}

// Appends the written form of the path with these names.
fn put_path(out: &mut Vec<u8>, names: &[Name]) -> Result<(), Memory>
    ensures { OnOk result (out.new.items ≡ out.old.items ++ printed_path names.now) }
{
    // The slash in front of the first name is that of `./`.
    out.push(b'.')?;
    for name in names {
        out.push(b'/')?;
        out.extend_from_slice(name.as_slice())?;
    }
    Ok(())
}

fn written(alloc: Global, uri: &Uri) -> Result<Vec<u8>, Memory>
    ensures { IfOk result (λ text. text.items ≡ printed uri.now) }
{
    let mut out = Vec::new(alloc);
    put_path(&mut out, uri.path.as_slice())?;
    out.extend_from_slice(query_text(uri.query))?;
    Ok(out)
}

/// The one written form: `.` or `./` and the names joined by `/`, then the query. Memory is the only error. Where it
/// has at most 255 bytes, `parse` reads it as the same value.
pub fn print(alloc: Global, uri: &Uri) -> Result<Vec<u8>, UriError>
    ensures ok { IfOk result (λ text. text.items ≡ printed uri.now) }
    ensures memory { IfErr result (λ e. e ≡ error.Memory) }
    ensures read { IfOk result (λ text. length text.items ≤ 255 → parse_of text.items ≡ Ok uri.now) }
{
    // Its contract says that the path keeps to the limits.
    let _ = uri.path.as_slice();
    Ok(written(alloc, uri)?)
}
