// One spelling of a message, and one measuring.
ghost use Rattle.std.specs.Prelude.{◌≡◌, length, OnOk};
ghost use Rattle.syncml_types.specs.Canonical.{canonical};
ghost use Rattle.syncml_types.specs.Lengths.{up_to_most};
ghost use Rattle.codec_bench.specs.Folding.{with_number, with_bytes};

use crate::fold::Fold;
use dm_base::Memory;
use std::alloc::Global;
use syncml_codec::encode;
use syncml_types::{Message, length};

/// Spells a message and folds how many bytes came.
pub fn spell(alloc: Global, message: &Message, fold: &mut Fold) -> Result<(), Memory>
    ensures { OnOk result (fold.new ≡ with_number fold.old (length (canonical message.now))) }
{
    let bytes = encode(alloc, message)?;
    fold.add(bytes.len() as u64);
    Ok(())
}

/// Spells a message and folds its bytes.
pub fn spell_and_fold(alloc: Global, message: &Message, fold: &mut Fold) -> Result<(), Memory>
    ensures { OnOk result (fold.new ≡ with_bytes fold.old (canonical message.now)) }
{
    let bytes = encode(alloc, message)?;
    fold.add_bytes(bytes.as_slice());
    Ok(())
}

/// Measures a message and folds its length.
pub fn measure_length(message: &Message, fold: &mut Fold)
    ensures { fold.new ≡ with_number fold.old (up_to_most (length (canonical message.now))) }
{
    fold.add(length(message));
}
