// Bytes as text, and parts of bytes.
use text_line::{Line, first};

// The line with bytes behind its end, two hexadecimal digits each; of more than 16 bytes the first eight and the count.
pub(crate) fn with_bytes(line: Line, bytes: &[u8]) -> Line {
    let count = bytes.len();
    let shown = first(bytes, if count <= 16 { 16 } else { 8 });
    let mut digits = [0u8; 32];
    let n = script_words::to_hex(shown, &mut digits);
    let line = line.text(first(&digits, 2 * n));
    if count <= 16 {
        return line;
    }
    line.item(b"..(", count as u64).text(b" bytes)")
}

// The bytes from a place on.
pub(crate) fn rest(bytes: &[u8], at: usize) -> &[u8] {
    bytes.get(at..).unwrap_or(b"")
}

// The bytes from one place up to another.
pub(crate) fn part(bytes: &[u8], start: usize, end: usize) -> &[u8] {
    rest(first(bytes, end), start)
}
