// A row: each call is made by itself in one state, and ok or a number is printed for each.
use crate::call::{ask, word_of};
use crate::codes::{letter, number_of, small, state_of};
use crate::lines::end_word;
use crate::show::rest;
use engine::{Connection, QUEUE_SIZE, Role, SLOT_SIZE};
use engine_marks::is_filled;
use refusal::Failure;
use script_lines::Call;
use std::io;

// The longest queue and the longest room that a row lends.
const LONGEST_QUEUE: usize = QUEUE_SIZE + 1;

const LONGEST_ROOM: usize = 4 + (SLOT_SIZE as usize);

// The session number that the calls name, and how many bytes of room and queue are lent: a letter each.
#[derive(Clone, Copy)]
struct Lent {
    number: u8,
    room: usize,
    queue: usize,
}

impl Lent {
    fn of(text: &[u8]) -> Lent {
        Lent {
            number: small(text, 10),
            room: number_of(letter(text, 11)) as usize,
            queue: number_of(letter(text, 12)) as usize,
        }
    }
}

// The number of a refusal or a violation.
fn number_in(failure: Failure) -> u8 {
    match failure {
        Failure::Refused(refusal) => refusal.number(),
        Failure::Violated(fault) => fault.violation.number(),
    }
}

// The first n bytes, or all where there are fewer.
fn prefix(s: &mut [u8], n: usize) -> &mut [u8] {
    if n <= s.len() { &mut s[..n] } else { s }
}

// Makes a call on buffers of its own, and returns whether a refusal left the state and each byte as they were.
fn attempt(rt: &impl Print, c: &Connection, asked: Call, lent: Lent) -> io::Result<bool> {
    let mut queue = [0xDDu8; LONGEST_QUEUE];
    let mut room = [0xEEu8; LONGEST_ROOM];
    let called = ask(
        *c,
        asked,
        b"\x00\x00\x00\x00",
        prefix(&mut queue, lent.queue),
        prefix(&mut room, lent.room),
    );
    let word = word_of(asked);
    match called.answer {
        Ok(_) => {
            print!(rt; " {word} ok")?;
            Ok(true)
        }
        Err(failure) => {
            print!(rt; " {word} {}", number_in(failure))?;
            let as_lent = is_filled(&queue, 0, 0xDD) && is_filled(&room, 0, 0xEE);
            Ok(as_lent && called.connection == *c)
        }
    }
}

// Makes each call, always on the state given.
fn attempts(rt: &impl Print, c: &Connection, lent: Lent) -> io::Result<bool> {
    let n = lent.number;
    let calls = [
        Call::Start,
        Call::Open(n),
        Call::Put(n),
        Call::Finish(n),
        Call::Turn,
        Call::Grant(n, 1),
        Call::Abort(n, false),
        Call::Close(n),
        Call::Ping(7),
        Call::Shutdown,
        Call::Lost,
        Call::Receive,
    ];
    let mut same = true;
    for asked in calls {
        same &= attempt(rt, c, asked, lent)?;
    }
    Ok(same)
}

// A row of an end: after the code of its state the letters for what is lent, and the label.
pub(crate) fn row(rt: &impl Print, end: Role, text: &[u8]) -> io::Result<()> {
    let c = state_of(end, text);
    print!(rt; "{} ", end_word(&c))?;
    rt.write_all(rest(text, 14))?;
    print!(rt; ":")?;
    let same = attempts(rt, &c, Lent::of(text))?;
    println!(rt; "; {}", if same { "same" } else { "spoiled" })
}
