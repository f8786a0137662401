// Reads 100,000 messages of a capture, Data with 16 bytes of payload each.
//
// The argument `read` names the loop; without an argument it runs too. It prints how many messages were read, and at the end the
// sum of the capture's bytes, so that the compiler keeps what was written there. The output is the same in each run; a clock
// outside it measures the time.
#![tactic(auto)]

use capture_step::next_at;
use std::env::FillError;
use std::io;
use std::rt::Env;
use wire::Role;

const ROUNDS: u64 = 100000;

const CAPTURE_SIZE: usize = 65536;

// A message with its header.
const MESSAGE_SIZE: usize = 20;

// The place to read on from, and how many messages were read so far.
#[derive(Drop)]
struct Scan {
    place: usize,
    taken: u64,
}

// Writes the header of each message into the capture, as far as whole messages fit.
fn write_headers(capture: &mut [u8; CAPTURE_SIZE]) {
    let mut at: usize = 0;
    // Kept: a walk over mutable chunks asks for an invariant of its iterator, which is longer than this one.
    while at <= CAPTURE_SIZE - MESSAGE_SIZE {
        capture[at..at + 4].copy_from_slice(&[0x80, 0x05, 0x00, 0x10]);
        at += MESSAGE_SIZE;
    }
}

// Reads the message at the place; behind the last one reading begins again.
fn read_round(capture: &[u8; CAPTURE_SIZE], scan: Scan) -> Scan {
    let step = next_at(capture, Role::Server, scan.place);
    match step.next {
        Ok(_) => Scan {
            place: step.place,
            taken: scan.taken.wrapping_add(1),
        },
        Err(_) => Scan { place: 0, ..scan },
    }
}

// Each round reads one message.
fn reads(capture: &[u8; CAPTURE_SIZE]) -> u64 {
    let mut scan = Scan { place: 0, taken: 0 };
    for _ in 0..ROUNDS {
        scan = read_round(capture, scan);
    }
    scan.taken
}

fn put(rt: &impl Print, name: &[u8], count: u64) -> io::Result<()> {
    rt.write_all(name)?;
    rt.println(count)
}

// The sum of the bytes.
fn sum(bytes: &[u8]) -> u64 {
    bytes
        .iter()
        .fold(0, |total: u64, byte| total.wrapping_add(*byte as u64))
}

// Prints what is in the capture.
fn left(rt: &impl Print, capture: &[u8; CAPTURE_SIZE]) -> io::Result<()> {
    put(rt, b"capture ", sum(capture))
}

// Whether the loop is to run: there is no argument, or it is the loop's name.
fn is_asked(rt: &impl Env) -> bool {
    let mut word = [0u8; 16];
    match rt.arg(1, &mut word) {
        Ok(n) => check::same(&word[..n], b"read"),
        Err(FillError::NotPresent) => true,
        Err(FillError::TooLong) => false,
    }
}

fn main(rt: HostRuntime) -> io::Result<()> {
    let mut capture = [0x61u8; CAPTURE_SIZE];
    write_headers(&mut capture);
    if is_asked(&rt) {
        put(&rt, b"read ", reads(&capture))?;
    } else {
        rt.eprintln("usage: capture_cost [read]")?;
    }
    left(&rt, &capture)
}
