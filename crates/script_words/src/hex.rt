// Bytes as lower-case hexadecimal digits.
ghost use Rattle.std.specs.Prelude.{◌≡◌, ◌*◌, ◌/◌, ◌≤◌, ◌<◌, min, length};
ghost use Rattle.script_words.specs.Hex.{digit_of, all_hex, byte_of, bytes_from_hex, is_bytes, glyph_of, text_of, laid};

use crate::words::is;

// The value of a digit.
fn digit(b: u8) -> Option<u8>
    ensures { result ≡ digit_of b }
{
    match b {
        b'0'..=b'9' => Some(b - b'0'),
        b'a'..=b'f' => Some(b - b'a' + 10),
        _ => None,
    }
}

// The byte of two digits, or 0.
fn byte(high: u8, low: u8) -> u8
    ensures { result ≡ byte_of high low }
{
    match (digit(high), digit(low)) {
        (Some(h), Some(l)) => h * 16 + l,
        _ => 0,
    }
}

// Whether each byte of the text is a digit.
fn all_hex(s: &[u8]) -> bool
    ensures { result ≡ all_hex s.now }
{
    s.iter().all(|b| digit(*b).is_some())
}

// Whether a word represents bytes, at most `most`: `-`, or an even number of digits.
#[tactic(auto, unfolding(crate::specs::Hex::is_bytes))]
pub fn is_bytes(s: &[u8], most: usize) -> bool
    ensures { result ≡ is_bytes most s.now }
{
    if is(s, b"-") {
        return true;
    }
    let n = s.len() / 2;
    n != 0 && s.len() % 2 == 0 && n <= most && all_hex(s)
}

// Puts the bytes of a text at the start of dst, as many as fit, and returns their number.
pub fn from_hex(s: &[u8], dst: &mut [u8]) -> usize
    ensures { (result ≡ min (length s.now / 2) (length dst.old)) × (dst.new ≡ laid dst.old (bytes_from_hex s.now) result) }
{
    let n = (s.len() / 2).min(dst.len());
    for (i, place) in dst[..n].iter_mut().enumerate() {
        *place = byte(s[2 * i], s[2 * i + 1]);
    }
    n
}

fn glyph(d: u8) -> u8
    requires { d < 16 }
    ensures { result ≡ glyph_of d }
{
    if d < 10 { b'0' + d } else { b'a' - 10 + d }
}

// Puts the digits of bytes at the start of dst, for as many bytes as fit, and returns the number of bytes.
pub fn to_hex(src: &[u8], dst: &mut [u8]) -> usize
    ensures { (result ≡ min (length src.now) (length dst.old / 2)) × (dst.new ≡ laid dst.old (text_of src.now) (2 * result)) }
{
    let n = src.len().min(dst.len() / 2);
    for (i, b) in src[..n].iter().enumerate() {
        dst[2 * i] = glyph(*b / 16);
        dst[2 * i + 1] = glyph(*b % 16);
    }
    n
}
