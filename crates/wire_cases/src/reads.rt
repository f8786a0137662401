// Byte strings through the reader: a table of them, line by line.
use crate::show::{put, with_refusal};
use refusal::ReadError;
use script_words::{from_hex, head, is, tail};
use std::io;
use text_line::{Line, first};
use text_message::{with_fault, with_message};
use wire::{Message, Role};

// A message that was read, and how many bytes of the input it has.
fn taken(m: Message) -> Line {
    let used = 4 + u64::from(wire_fields::body_length(m));
    with_message(Line::new().text(b": ok "), m).item(b" used ", used)
}

// Why nothing was read.
fn unread(error: ReadError) -> Line {
    match error {
        ReadError::Incomplete => with_refusal(Line::new(), 10),
        ReadError::Violated(fault) => with_fault(Line::new().text(b":"), fault),
    }
}

fn answer(answer: Result<Message, ReadError>) -> Line {
    match answer {
        Ok(m) => taken(m),
        Err(error) => unread(error),
    }
}

fn role_of(name: &[u8]) -> Role {
    if is(name, b"client") {
        Role::Client
    } else {
        Role::Server
    }
}

// The number behind a parenthesis, or n if there is none.
fn count(s: &[u8], n: usize) -> usize {
    match s {
        [_, rest @ ..] => script_words::size_of(head(rest), 65600).unwrap_or(n),
        [] => n,
    }
}

// Puts bytes at the start of a room, and returns how many bytes are meant in all.
fn put_bytes(digits: &[u8], room: &mut [u8]) -> usize {
    let k = digits
        .iter()
        .position(|b| *b == b'(')
        .unwrap_or(digits.len());
    let n = from_hex(first(digits, k), room);
    count(digits.get(k..).unwrap_or(b""), n)
}

// What the bytes of a message, behind the name of their sender, are read as.
fn message(line: &[u8]) -> Line {
    let mut bytes = [0u8; 65600];
    let n = put_bytes(tail(line), &mut bytes);
    answer(wire_read::read_message(role_of(head(line)), first(&bytes, n)))
}

fn header_answer(answer: Result<u16, ReadError>) -> Line {
    match answer {
        Ok(n) => Line::new().item(b": ok ", n as u64),
        Err(error) => unread(error),
    }
}

fn header(digits: &[u8]) -> Line {
    let mut bytes = [0u8; 16];
    let n = from_hex(digits, &mut bytes);
    header_answer(wire_connection_header::read_connection_header(first(&bytes, n)))
}

// Prints a line of the table, and behind it what its bytes are read as.
fn line(rt: &impl Print, line: &[u8]) -> io::Result<()> {
    if script_words::is_skipped(line) {
        return Ok(());
    }
    rt.write_all(line)?;
    if is(head(line), b"header") {
        put(rt, header(tail(line)))
    } else {
        put(rt, message(tail(line)))
    }
}

pub(crate) fn all(rt: &impl Print, table: &[u8]) -> io::Result<()> {
    for text in table.split(|b| *b == b'\n') {
        line(rt, text)?;
    }
    Ok(())
}
