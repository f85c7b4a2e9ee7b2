// Digits and the numbers that they write. A character that is no digit has no value.
// Each reader says so by `None`, and `?` passes it on to the line.

ghost use Rattle.std.specs.Prelude.{◌≡◌, ◌^◌, ◌<◌, ◌≤◌, length, IfSome};
ghost use Rattle.lines.specs.Digits.{decimal_digit, hexadecimal_digit, digit as digit_value, radix as radix_value, value as value_of, number as number_of, word as word_of};

// There are these two bases and no more: a trait with a type for each would say the same in more lines.
#[derive(Clone, Copy)]
enum Base {
    Decimal,
    Hexadecimal,
}

// Ranges of digits are literal cases by a rule of the project. `char::to_digit` would also take capital letters, which are no digits of a script.
pub fn dec(b: u8) -> Option<u32>
    ensures { result ≡ decimal_digit b }
{
    match b {
        b'0'..=b'9' => Some(u32::from(b - b'0')),
        _ => None,
    }
}

pub fn hex(b: u8) -> Option<u32>
    ensures { result ≡ hexadecimal_digit b }
{
    match b {
        b'a'..=b'f' => Some(u32::from(b - b'a') + 10),
        _ => dec(b),
    }
}

impl Base {
    fn radix(self) -> u64
        ensures { result ≡ radix_value self }
    {
        match self {
            Base::Decimal => 10,
            Base::Hexadecimal => 16,
        }
    }

    fn digit(self, b: u8) -> Option<u32>
        ensures { result ≡ digit_value self b }
    {
        match self {
            Base::Decimal => dec(b),
            Base::Hexadecimal => hex(b),
        }
    }
}

// The number that a short text of digits writes.
fn value(text: &[u8], base: Base) -> Option<u64>
    requires { length text.now ≤ 10 }
    ensures value { result ≡ value_of base text.now }
    ensures bound { IfSome result (λ n. n < radix_value base ^ length text.now) }
{
    let mut v = 0;
    for b in text {
        let d = base.digit(*b)?;
        v = v * base.radix() + u64::from(d);
    }
    Some(v)
}

// A number of one to ten decimal digits that fits 32 bits.
pub fn number(text: &[u8]) -> Option<u32>
    ensures { result ≡ number_of text.now }
{
    if text.is_empty() || text.len() > 10 {
        return None;
    }
    u32::try_from(value(text, Base::Decimal)?).ok()
}

// A word of exactly eight hexadecimal digits.
pub fn word(text: &[u8]) -> Option<u32>
    ensures { result ≡ word_of text.now }
{
    if text.len() != 8 {
        return None;
    }
    u32::try_from(value(text, Base::Hexadecimal)?).ok()
}
