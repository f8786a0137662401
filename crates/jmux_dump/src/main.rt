// Prints the messages of a capture, which holds one direction of a connection: a line for each message, with its place.
//
// It is tested on a capture with each type of message that a client sends, against lines that are made by hand: each message
// is looked up in the published tables, its place is the sum of the lengths before it, and none of the lines is copied from
// a run.
#![tactic(auto)]

use capture_reader::{FIRST_PLACE, read_at, read_first};
use capture_rules::Step;
use input_bytes::read_full;
use refusal::{Failure, Fault, ReadError, Refusal};
use std::env::FillError;
use std::io;
use std::io::Read;
use std::rt::Env;
use text_line::Line;
use text_message::{with_fault, with_message};
use wire::{Message, Role};

// Whether the program was started with an argument of this index.
fn has_argument(rt: &impl Env, i: usize) -> bool {
    let mut start = [0u8; 1];
    !matches!(rt.arg(i, &mut start), Err(FillError::NotPresent))
}

// The sender that the argument names.
fn argument(rt: &impl Env) -> Option<Role> {
    let mut word = [0u8; 6];
    let n = rt.arg(1, &mut word).ok()?;
    if has_argument(rt, 2) {
        return None;
    }
    match &word[..n] {
        b"client" => Some(Role::Client),
        b"server" => Some(Role::Server),
        _ => None,
    }
}

fn put(rt: &impl Print, line: Line) -> io::Result<()> {
    rt.write_all(line.text(b"\n").as_bytes())
}

// A line that begins with a place.
fn at(place: usize) -> Line {
    Line::new().number(place as u64)
}

// Prints the line of a message, after which reading goes on.
fn put_message(rt: &impl Print, place: usize, m: Message) -> io::Result<bool> {
    put(rt, with_message(at(place).text(b" "), m))?;
    Ok(true)
}

// Prints the line of a refusal, after which reading stops.
fn put_refusal(rt: &impl Print, place: usize, number: u8) -> io::Result<bool> {
    put(rt, at(place).item(b" refused ", number as u64))?;
    Ok(false)
}

// Prints the line of a violation; its own place counts from the one that the line begins with.
fn put_fault(rt: &impl Print, place: usize, fault: Fault) -> io::Result<bool> {
    put(rt, with_fault(at(place), fault))?;
    Ok(false)
}

// Prints the number of the connection header; nothing else depends on it.
fn put_header(rt: &impl Print, capture: &[u8]) -> io::Result<()> {
    match wire_connection_header::read_connection_header(capture) {
        Ok(n) => put(rt, at(0).item(b" header ", n as u64)),
        Err(ReadError::Incomplete) => {
            put_refusal(rt, 0, Refusal::Incomplete.number())?;
            Ok(())
        }
        Err(ReadError::Violated(fault)) => {
            put_fault(rt, 0, fault)?;
            Ok(())
        }
    }
}

// Prints the line of a place, a message or the refusal that ends the reading, and returns the place to read on from.
fn put_step(rt: &impl Print, place: usize, step: Step) -> io::Result<Option<usize>> {
    let more = match step.next {
        Ok(m) => put_message(rt, place, m)?,
        Err(Failure::Refused(r)) => put_refusal(rt, place, r.number())?,
        Err(Failure::Violated(fault)) => put_fault(rt, place, fault)?,
    };
    Ok(more.then_some(step.place))
}

// Prints each message until the first refusal, which keeps its place. A capture has no more messages than bytes.
fn put_messages(rt: &impl Print, capture: &[u8], from: Role) -> io::Result<()> {
    let mut next = put_step(rt, FIRST_PLACE, read_first(capture, from))?;
    for _ in 0..capture.len() {
        let Some(place) = next else { break };
        next = put_step(rt, place, read_at(capture, from, place))?;
    }
    Ok(())
}

// Whether the input has another byte.
fn is_more(stdin: &mut impl Read) -> io::Result<bool> {
    let mut byte = [0u8; 1];
    Ok(read_full(stdin, &mut byte)? == 1)
}

// Reads a capture into a buffer, and prints what it holds.
fn dump(
    rt: &(impl Print + Eprint),
    stdin: &mut impl Read,
    bytes: &mut [u8; 524288],
    from: Role,
) -> io::Result<()> {
    let n = read_full(stdin, bytes)?;
    if is_more(stdin)? {
        return rt.eprintln("the capture is longer than 524288 bytes");
    }
    let capture = text_line::first(bytes, n);
    put(rt, Line::new().item(b"length ", capture.len() as u64))?;
    put_header(rt, capture)?;
    put_messages(rt, capture, from)
}

fn main(rt: HostRuntime) -> io::Result<()> {
    let Some(from) = argument(&rt) else {
        return rt.eprintln("usage: jmux_dump client|server < CAPTURE");
    };
    dump(&rt, &mut rt.stdin(), &mut [0u8; 524288], from)
}
