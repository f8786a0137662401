// Goes through tables, whose lines are rows, receipts and the calls of runs.
ghost use Rattle.std.specs.Prelude.{◌<◌};

use crate::codes::{letter, number_of, small, state_of};
use crate::lines::Bench;
use crate::rows::row;
use crate::show::rest;
use engine::{Connection, Role, SLOT_SIZE};
use script_lines::Call;
use std::io;
use text_line::first;

// The most bytes that a line names: a byte more than a slot.
const MOST_BYTES: usize = 1 + (SLOT_SIZE as usize);

// How many bytes the digits of a line name at most.
const MOST_NAMED: usize = 16;

// The byte that the digits at a place name.
fn byte_at(digits: &[u8], i: usize) -> u8
    requires { i < 16 }
{
    (small(digits, 2 * i) << 4) | small(digits, 2 * i + 1)
}

// The first 16 bytes that hexadecimal digits name; the bytes behind them repeat the 16th.
fn bytes_of(digits: &[u8]) -> [u8; MOST_BYTES] {
    let mut bytes = [byte_at(digits, MOST_NAMED - 1); MOST_BYTES];
    for i in 0..MOST_NAMED {
        bytes[i] = byte_at(digits, i);
    }
    bytes
}

// A row for a client, for a server, or for both.
fn put_row(rt: &impl Print, text: &[u8]) -> io::Result<()> {
    let end = letter(text, 0);
    if end != b's' {
        row(rt, Role::Client, text)?;
    }
    if end != b'c' {
        row(rt, Role::Server, text)?;
    }
    Ok(())
}

// The end that a code names.
fn end_of(code: &[u8]) -> Connection {
    match letter(code, 0) {
        b's' => state_of(Role::Server, code),
        _ => state_of(Role::Client, code),
    }
}

// The place of the space behind the digits of a line, if there is one.
fn space(digits: &[u8]) -> Option<usize> {
    digits.iter().position(|b| *b == b' ')
}

// How many bytes the digits up to a space name; if there are 16, an amount above 16 counts instead.
fn count_of(digits: &[u8], amount: u32) -> usize {
    let named = space(digits).unwrap_or(digits.len()) / 2;
    let amount = amount as usize;
    if named == MOST_NAMED {
        named.max(amount)
    } else {
        named
    }
}

// Makes a call with the bytes that digits name, as many as `count_of` says.
fn put_call(
    rt: &impl Print,
    bench: &mut Bench,
    asked: Call,
    digits: &[u8],
    amount: u32,
) -> io::Result<()> {
    let bytes = bytes_of(digits);
    bench.call(rt, asked, first(&bytes, count_of(digits, amount)))
}

// The label behind the digits, where there is one.
fn label(rt: &impl Print, digits: &[u8]) -> io::Result<()> {
    if let Some(at) = space(digits) {
        let label = rest(rest(digits, at), 1);
        if !label.is_empty() {
            rt.write_all(label)?;
            print!(rt; ", ")?;
        }
    }
    Ok(())
}

// A line of a receipt: after the code the bytes received, and a label.
fn put_receipt(rt: &impl Print, text: &[u8]) -> io::Result<()> {
    let digits = rest(text, 10);
    label(rt, digits)?;
    put_call(rt, &mut Bench::new(end_of(text)), Call::Receive, digits, 0)
}

// The call that the first letter of a line asks for, with the number in the second place and the meaning of the third letter.
fn call_of(text: &[u8]) -> Option<Call> {
    let n = small(text, 1);
    let third = letter(text, 2);
    let call = match letter(text, 0) {
        b's' => Call::Start,
        b'o' => Call::Open(n),
        b'p' => Call::Put(n),
        b'f' => Call::Finish(n),
        b't' => Call::Turn,
        b'g' => Call::Grant(n, number_of(third)),
        b'a' => Call::Abort(n, third == b'p'),
        b'c' => Call::Close(n),
        b'i' => Call::Ping(256 + u16::from(n)),
        b'h' => Call::Shutdown,
        b'l' => Call::Lost,
        b'r' => Call::Receive,
        _ => return None,
    };
    Some(call)
}

// A line of a run: a new end, a look at a slot or a fate, or a call.
fn run_line(rt: &impl Print, bench: &mut Bench, text: &[u8]) -> io::Result<()> {
    let digits = rest(text, 4);
    match letter(text, 0) {
        b'@' => {
            *bench = Bench::new(end_of(digits));
            Ok(())
        }
        b'?' => bench.slot_5(rt),
        b'=' => bench.fate(rt, small(text, 1)),
        _ => match call_of(text) {
            Some(asked) => put_call(rt, bench, asked, digits, number_of(letter(text, 2))),
            None => println!(rt; "wrong line"),
        },
    }
}

// A line of a table: of a run by a space in the fourth place, of a receipt by one in the tenth, or else a row. A comment
// and an empty line are skipped.
fn put(rt: &impl Print, bench: &mut Bench, text: &[u8]) -> io::Result<()> {
    if matches!(letter(text, 0), b'#' | b' ') {
        Ok(())
    } else if letter(text, 3) == b' ' {
        run_line(rt, bench, text)
    } else if letter(text, 9) == b' ' {
        put_receipt(rt, text)
    } else {
        put_row(rt, text)
    }
}

// Puts each line of a table.
pub(crate) fn put_all(rt: &impl Print, table: &[u8]) -> io::Result<()> {
    let mut bench = Bench::new(end_of(b"cf-.000-5"));
    for text in table.split(|b| *b == b'\n') {
        put(rt, &mut bench, text)?;
    }
    Ok(())
}
