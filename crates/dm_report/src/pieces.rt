// The pieces of values that Results bring, and the alerts, as they are kept.
ghost use Rattle.std.specs.Prelude.{◌≡◌, [], IfOk, unwrap_or};
ghost use Rattle.dm_atomic.specs.Tasks.{target_text};
ghost use Rattle.dm_service.specs.Matching as Spec;

use dm_atomic::metas::{format_of, media_of, size_of};
use dm_base::{Bytes, Memory};
use dm_objects::Piece;
use dm_service::KeptAlert;
use std::alloc::Global;
use syncml_types::{Item, ResultsCmd, Step, Verb};

fn source_text(alloc: Global, item: &Item) -> Result<Option<Bytes>, Memory>
    ensures { IfOk result (λ text. text ≡ target_text (Spec.to_source item.now)) }
{
    match &item.source {
        None => Ok(None),
        Some(source) => Ok(Some(source.uri.copy(alloc)?)),
    }
}

fn bytes_or_none(alloc: Global, bytes: &Option<Bytes>) -> Result<Bytes, Memory>
    ensures { IfOk result (λ copied. copied ≡ unwrap_or bytes.now []) }
{
    match bytes {
        None => Ok(Bytes::new(alloc)),
        Some(bytes) => bytes.copy(alloc),
    }
}

fn step_of(alloc: Global, results: &ResultsCmd, item: &Item) -> Result<Step, Memory>
    ensures { IfOk result (λ step. step ≡ (Spec.result_piece results.now item.now).step) }
{
    Ok(Step {
        verb: Verb::Replace,
        target: source_text(alloc, item)?,
        format: format_of(alloc, &item.meta, &results.meta)?,
        media: media_of(alloc, &item.meta, &results.meta)?,
        value: bytes_or_none(alloc, &item.value)?,
        correlator: None,
        in_atomic: false,
    })
}

/// What an Item of Results brings: a piece of a Replace outside an Atomic, whose target is the Item's Source.
pub(crate) fn result_piece(
    alloc: Global,
    results: &ResultsCmd,
    item: &Item,
) -> Result<Piece, Memory>
    ensures { IfOk result (λ piece. piece ≡ Spec.result_piece results.now item.now) }
{
    Ok(Piece {
        step: step_of(alloc, results, item)?,
        size: size_of(&item.meta, &results.meta),
        more: item.more,
    })
}

fn item_media(alloc: Global, item: &Item) -> Result<Bytes, Memory>
    ensures { IfOk result (λ media. media ≡ unwrap_or (Spec.item_media item.now) []) }
{
    match &item.meta {
        None => Ok(Bytes::new(alloc)),
        Some(meta) => bytes_or_none(alloc, &meta.inner.media),
    }
}

/// What is kept of an Alert with these Items.
pub(crate) fn kept_alert(alloc: Global, items: &[Item]) -> Result<KeptAlert, Memory>
    ensures { IfOk result (λ alert. alert ≡ Spec.kept_alert items.now) }
{
    let Some(item) = items.first() else {
        return Ok(KeptAlert {
            media: Bytes::new(alloc),
            value: Bytes::new(alloc),
        });
    };
    Ok(KeptAlert {
        media: item_media(alloc, item)?,
        value: bytes_or_none(alloc, &item.value)?,
    })
}
