// What bytes and messages have to do with each other, for whatever bytes.
ghost use Rattle.std.specs.Prelude.{◌≡◌, ◌≤◌, length, Ok as Good};
ghost use Rattle.wbxml_tokens.specs.Reading.{most_bytes};
ghost use Rattle.syncml_types.specs.Canonical.{canonical};
ghost use Rattle.syncml_codec.specs.Messages.{Spells};
ghost use Rattle.syncml_codec.specs.Decoding.{read_of};
ghost use Rattle.syncml_codec.specs.Laws as Law;

use crate::ranges::numbers_are_in_range;
use syncml_types::Message;

/// Law: what is read of bytes is the message that they spell, and no other.
pub fn spelled_is_read()
    ensures { Law.SpelledIsRead }
{}

/// Law: the refusal that is read of bytes is the place and the reason of the first refusal, and no other.
pub fn refused_is_read()
    ensures { Law.RefusedIsRead }
{}

/// Law: bytes spell at most one message.
pub fn one_is_spelled()
    ensures { Law.OneIsSpelled }
{}

/// Law: no spelling is a proper prefix of another.
pub fn none_goes_on()
    ensures { Law.NoneGoesOn }
{}

/// Law: bytes settle a refusal exactly where it is theirs, whatever follows them; they settle each that they have but
/// Truncated. A token that the grammar refuses is settled by the bytes up to its end, and a part that the reader
/// refuses by no more than six from its place on, an identifier aside, whose text is looked up once the string table is
/// whole.
pub fn settled_is_for_good()
    ensures exact { Law.SettledIsForGood }
    ensures refused { Law.RefusedIsSettled }
    ensures token { Law.RefusedTokenIsSettled }
    ensures part { Law.RefusedPartIsSettled }
{}

/// Law: bytes that are refused as truncated aren't so at that place with any byte more.
pub fn truncated_is_open()
    ensures { Law.TruncatedIsOpen }
{}

/// Law: the canonical tokens of a fit message spell it, and each of them can be spelled.
pub fn canonical_is_spelled()
    ensures message { Law.CanonicalIsSpelled }
    ensures tokens { Law.CanonicalCanBeSpelled }
{}

/// Law: the canonical spelling of a fit message, where it has at most 65,536 bytes, spells it, so it is read again as
/// that message.
pub fn canonical_is_read()
    ensures { Law.CanonicalIsRead }
{}

/// Law: each number of what bytes spell is in the range of its type.
pub fn spelled_is_in_range()
    ensures { Law.SpelledIsInRange }
{}

/// A law over messages: what `encode` gives of one, where it has at most 65,536 bytes, spells it, so it is read again
/// as that message.
pub fn encoded_is_read(message: &Message)
    ensures spelled { length (canonical message.now) ≤ most_bytes → Spells (canonical message.now) message.now }
    ensures read { length (canonical message.now) ≤ most_bytes → read_of (canonical message.now) ≡ Good message.now }
{
    message.header();
    numbers_are_in_range(message);
}
