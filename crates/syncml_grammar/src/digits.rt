// Numbers in decimal, digit by digit.
ghost use Rattle.std.specs.Prelude.{◌≡◌, ◌<◌, ◌≤◌, ◌+◌, ◌*◌, ◌-◌, drop};
ghost use Rattle.syncml_grammar.specs.Numbers.{longer, with_digit, digit_after, digits_after, number_in};

/// The decimal digits of a number so far. It keeps no text.
#[derive(Clone, Copy, Debug, PartialEq, Eq)]
pub enum Digits {
    /// No byte has come.
    Start,
    /// Digits without a leading zero, of a number that has 64 bits.
    Number(u64),
    /// What came begins no number.
    Bad,
}

// The number with one digit more.
fn lengthened(number: u64, digit: u64) -> Digits
    requires { digit ≤ 9 }
    ensures { result ≡ longer number digit }
{
    if number == 0 {
        return Digits::Bad;
    }
    match number.checked_mul(10) {
        None => Digits::Bad,
        Some(tens) => match tens.checked_add(digit) {
            None => Digits::Bad,
            Some(longer) => Digits::Number(longer),
        },
    }
}

impl Digits {
    fn push_digit(self, digit: u64) -> Digits
        requires { digit ≤ 9 }
        ensures { result ≡ with_digit self digit }
    {
        match self {
            Digits::Start => Digits::Number(digit),
            Digits::Number(number) => lengthened(number, digit),
            Digits::Bad => Digits::Bad,
        }
    }

    fn push(self, byte: u8) -> Digits
        ensures { result ≡ digit_after self byte }
    {
        match byte {
            48..=57 => self.push_digit(u64::from(byte - 48)),
            _ => Digits::Bad,
        }
    }

    /// The digits behind more bytes.
    pub fn extend(self, bytes: &[u8]) -> Digits
        ensures { result ≡ digits_after self bytes.now }
    {
        let mut digits = self;
        for byte in bytes {
            digits = digits.push(*byte);
        }
        digits
    }

    /// The number. None comes exactly where the bytes are none.
    pub fn number(self) -> Option<u64>
        ensures { result ≡ number_in self }
    {
        match self {
            Digits::Number(number) => Some(number),
            _ => None,
        }
    }
}
