// Lines, bytes and a role as text.
use std::io;
use text_line::{Line, first};
use wire::Role;

pub(crate) fn role_word(role: Role) -> &'static str {
    match role {
        Role::Client => "client",
        Role::Server => "server",
    }
}

pub(crate) fn put(rt: &impl Print, line: Line) -> io::Result<()> {
    rt.write_all(line.text(b"\n").as_bytes())
}

pub(crate) fn with_refusal(line: Line, number: u8) -> Line {
    line.item(b": refused ", number as u64)
}

// The line with the digits of the bytes of a room behind its end.
pub(crate) fn with_hex(line: Line, bytes: &[u8]) -> Line {
    let mut digits = [0u8; 64];
    let n = script_words::to_hex(bytes, &mut digits);
    line.text(first(&digits, 2 * n))
}
