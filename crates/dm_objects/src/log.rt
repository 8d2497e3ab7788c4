// The changes of the present object since the inbox was settled.
ghost use Rattle.std.specs.Prelude.{◌≡◌, ◌++◌, IfOk, OnOk, OnErr};
ghost use Rattle.dm_objects.specs.Seen.{before, extended};
ghost use Rattle.dm_objects.specs.declared.log.Past.TheVariants.{Grew};

use crate::object::Object;
use dm_base::Memory;

/// How to go back over a change: nothing changed, another object stood here, or the value had so many bytes.
#[derive(Drop)]
pub enum Past {
    Same,
    Was(Object),
    Grew(usize),
}

// The value gets these bytes behind its own. The answer is its length before.
pub(crate) fn extend_value(object: &mut Object, bytes: &[u8]) -> Result<usize, Memory>
    ensures ok { OnOk result (object.new ≡ extended object.old bytes.now) }
    ensures back { IfOk result (λ length_before. before (Grew length_before) object.new ≡ object.old) }
    ensures err { OnErr result (object.new ≡ object.old) }
{
    match object {
        Object::Buffering(begun) => {
            let length_before = begun.value.len();
            begun.value.extend(bytes)?;
            Ok(length_before)
        }
        Object::Nothing => Ok(0),
        Object::Skipping(_, _) => Ok(0),
    }
}

pub(crate) fn go_back(object: &mut Object, past: Past)
    ensures { object.new ≡ before past object.old }
{
    match past {
        Past::Same => {}
        Past::Was(old) => *object = old,
        Past::Grew(length_before) => {
            if let Object::Buffering(begun) = object {
                begun.value.cut_to(length_before);
            }
        }
    }
}
