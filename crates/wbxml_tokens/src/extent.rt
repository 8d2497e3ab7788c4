// How far the one element of a body has come.
ghost use Rattle.std.specs.Prelude.{◌≡◌, ◌<◌, ◌≤◌, ◌+◌, ◌^◌, ◌-◌, ℕ, List};
ghost use Rattle.wbxml_tables.specs.declared.Element.{Element as Name};
ghost use Rattle.wbxml_tokens.specs.Reading as Spec;
ghost use Rattle.wbxml_tokens.specs.Reading.{depth_of, extent_after};
ghost use Rattle.wbxml_tokens.specs.declared.token.Token.TheVariants.{Tag, End, Text, Opaque};

/// How far the one element of a body has come.
#[derive(Clone, Copy, Debug, PartialEq, Eq)]
pub enum Extent {
    /// No token came.
    Before,
    /// So many elements are open, at least one.
    Inside(u32),
    /// The element is whole.
    Whole,
    /// A token stood outside the element, so the body never is whole.
    Never,
}

impl Extent {
    /// Whether the element is whole.
    pub fn is_whole(self) -> bool
        ensures { result ≡ Spec.is_whole self }
    {
        match self {
            Extent::Whole => true,
            _ => false,
        }
    }

    // Behind a tag.
    pub(crate) fn behind_tag(self, content: bool) -> Extent
        requires { depth_of self < 2 ^ 32 - 1 }
        ensures tag { (e : Name) → result ≡ extent_after self (Tag e content) }
        ensures depth { depth_of result ≤ depth_of self + 1 }
    {
        match self {
            Extent::Before if content => Extent::Inside(1),
            Extent::Before => Extent::Whole,
            Extent::Inside(depth) if content => Extent::Inside(depth + 1),
            other => other,
        }
    }

    // Behind an END.
    pub(crate) fn behind_end(self) -> Extent
        ensures end { result ≡ extent_after self End }
        ensures depth { depth_of result ≤ depth_of self + 1 }
    {
        match self {
            Extent::Before => Extent::Never,
            Extent::Inside(1) => Extent::Whole,
            Extent::Inside(depth) => Extent::Inside(depth.saturating_sub(1)),
            other => other,
        }
    }

    // Behind a text or an opaque.
    pub(crate) fn behind_bytes(self) -> Extent
        ensures text { (bytes : List ℕ) → result ≡ extent_after self (Text bytes) }
        ensures opaque { (bytes : List ℕ) → result ≡ extent_after self (Opaque bytes) }
        ensures depth { depth_of result ≤ depth_of self + 1 }
    {
        match self {
            Extent::Before => Extent::Never,
            other => other,
        }
    }
}
