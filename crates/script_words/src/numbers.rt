// Decimal numbers, digit by digit.
ghost use Rattle.std.specs.Prelude.{◌≡◌, ◌≤◌, length};
ghost use Rattle.script_words.specs.Numbers.{leads_with_zero, digits_of, decimal_of, id_from, short_from, at_most};

// The value of a text of at most nine bytes that are all digits.
fn digits(s: &[u8]) -> Option<u32>
    requires { length s.now ≤ 9 }
    ensures { result ≡ digits_of s.now }
{
    let mut value = 0;
    for b in s {
        if !b.is_ascii_digit() {
            return None;
        }
        value = value * 10 + u32::from(*b - b'0');
    }
    Some(value)
}

// Whether a text has several bytes and the first is the digit 0.
fn leads_with_zero(s: &[u8]) -> bool
    ensures { result ≡ leads_with_zero s.now }
{
    matches!(s, [b'0', _, ..])
}

// A decimal number of at most nine digits, with no sign and no leading zero.
#[tactic(auto, unfolding(crate::specs::Numbers::decimal_of))]
pub fn decimal_of(s: &[u8]) -> Option<u32>
    ensures { result ≡ decimal_of s.now }
{
    if s.is_empty() || 9 < s.len() || leads_with_zero(s) {
        return None;
    }
    digits(s)
}

// A session number, if it fits a byte.
pub fn id_of(s: &[u8]) -> Option<u8>
    ensures { result ≡ id_from (decimal_of s.now) }
{
    u8::try_from(decimal_of(s)?).ok()
}

// A number of 16 bits.
pub fn short_of(s: &[u8]) -> Option<u16>
    ensures { result ≡ short_from (decimal_of s.now) }
{
    u16::try_from(decimal_of(s)?).ok()
}

// A length of at most `most`.
pub fn size_of(s: &[u8], most: u32) -> Option<usize>
    ensures { result ≡ at_most most (decimal_of s.now) }
{
    let n = decimal_of(s)?;
    (n <= most).then_some(n as usize)
}
