// The tokens of a body, and what takes them one after the other.
ghost use Rattle.std.specs.Prelude.{◌≡◌, ◌<◌, ◌^◌, ℕ, length, Option as Maybe, OnOk};
ghost use Rattle.wbxml_tokens.specs.declared.reason.Reason.{Reason as Cause};
ghost use Rattle.wbxml_tokens.specs.Taking.{TakesToken};
ghost use Rattle.wbxml_tokens.specs.Spelling.{given, leaf_tokens};
ghost use Rattle.wbxml_tokens.specs.declared.token.Token.{Token as Piece};
ghost use Rattle.wbxml_tokens.specs.declared.token.Token.TheVariants.{Tag, End, Text, Opaque};

use crate::reason::Reason;
use dm_base::Bytes;
use wbxml_tables::Element;

/// A token of the body. Strings of the table and page switches are resolved.
#[derive(Drop)]
pub enum Token {
    /// A tag; with `content` set, what follows up to its `End` stands in the element.
    Tag { element: Element, content: bool },
    End,
    Text(Bytes),
    Opaque(Bytes),
}

/// A token, and the place of its first byte in the document, counted from 0 and behind the page switches before it.
#[derive(Drop)]
pub struct Placed {
    pub at: u64,
    pub token: Token,
}

/// What takes tokens one after the other: a writer of bytes, a counter, a listing or a builder.
pub trait Writer {
    type Error;

    /// What it is after one more token.
    ghost after: { Self → Piece → Self };

    /// Why it refuses a token, or None where it takes it.
    ghost refusal: { Self → Piece → Maybe Cause };

    /// The reason that an error tells, or None for an error that is no refusal.
    ghost told: { Self.Error → Maybe Cause };

    /// How an error that is no refusal leaves it.
    ghost left: { Self → Self → Type 0 };

    fn tag(&mut self, element: Element, content: bool) -> Result<(), Self::Error>
        ensures ok { OnOk result (self.new ≡ after self.old (Tag element content)) }
        ensures taken { TakesToken told left result self.old self.new (refusal self.old (Tag element content)) };

    fn end(&mut self) -> Result<(), Self::Error>
        ensures ok { OnOk result (self.new ≡ after self.old End) }
        ensures taken { TakesToken told left result self.old self.new (refusal self.old End) };

    fn text(&mut self, text: &[u8]) -> Result<(), Self::Error>
        ensures ok { OnOk result (self.new ≡ after self.old (Text text.now)) }
        ensures taken { TakesToken told left result self.old self.new (refusal self.old (Text text.now)) };

    /// An element whose content is a text: its tag, the text and its end. Where one of them isn't taken, nothing is
    /// promised of those before it.
    fn leaf(&mut self, element: Element, text: &[u8]) -> Result<(), Self::Error>
        ensures ok { OnOk result (self.new ≡ given after self.old (leaf_tokens element text.now)) }
    {
        self.tag(element, true)?;
        self.text(text)?;
        self.end()
    }

    fn opaque(&mut self, bytes: &[u8]) -> Result<(), Self::Error>
        requires { length bytes.now < 2 ^ 32 }
        ensures ok { OnOk result (self.new ≡ after self.old (Opaque bytes.now)) }
        ensures taken { TakesToken told left result self.old self.new (refusal self.old (Opaque bytes.now)) };
}

/// A writer that a reader hands its tokens to: before each token it is told the token's place.
pub trait Taker: Writer {
    /// What it is once it was told a place.
    ghost placed: { Self → ℕ → Self };

    fn place(&mut self, at: u64)
        ensures { self.new ≡ placed self.old at };

    /// Why the token was refused, or None where the error is want of memory.
    fn reason(error: Self::Error) -> Option<Reason>
        ensures { result ≡ Self.told error };
}
