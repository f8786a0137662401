// Makes 100,000 turns, puts and receipts on one connection, and checks as often whether it is well formed.
//
// The argument names one of the loops; without an argument all run. Each prints how many of its calls were taken. At the end
// the bytes left in queue and room are added up, so that the compiler keeps what the calls wrote there. The output is the
// same in each run; a clock outside it measures the time.
#![tactic(auto)]

mod rounds;

use engine::QUEUE_SIZE;
use rounds::ROOM_SIZE;
use std::env::FillError;
use std::io;
use std::rt::Env;

fn put(rt: &impl Print, name: &str, count: u64) -> io::Result<()> {
    println!(rt; "{name} {count}")
}

fn all(
    rt: &impl Print,
    queue: &mut [u8; QUEUE_SIZE],
    room: &mut [u8; ROOM_SIZE],
) -> io::Result<()> {
    put(rt, "table", rounds::tables())?;
    put(rt, "wellformed", rounds::checks())?;
    put(rt, "turn", rounds::turns(queue, room))?;
    put(rt, "put", rounds::puts(queue))?;
    put(rt, "receive", rounds::receipts(room))
}

fn usage(rt: &impl Eprint) -> io::Result<()> {
    rt.eprintln("usage: engine_cost [table|wellformed|turn|put|receive]")
}

// Runs the loop that a word names.
fn run(
    rt: &(impl Print + Eprint),
    word: &[u8],
    queue: &mut [u8; QUEUE_SIZE],
    room: &mut [u8; ROOM_SIZE],
) -> io::Result<()> {
    match word {
        b"table" => put(rt, "table", rounds::tables()),
        b"wellformed" => put(rt, "wellformed", rounds::checks()),
        b"turn" => put(rt, "turn", rounds::turns(queue, room)),
        b"put" => put(rt, "put", rounds::puts(queue)),
        b"receive" => put(rt, "receive", rounds::receipts(room)),
        _ => usage(rt),
    }
}

// The sum of the bytes.
fn sum(bytes: &[u8]) -> u64 {
    bytes
        .iter()
        .fold(0, |total: u64, byte| total.wrapping_add(u64::from(*byte)))
}

// Prints what is left in queue and room.
fn left(rt: &impl Print, queue: &[u8; QUEUE_SIZE], room: &[u8; ROOM_SIZE]) -> io::Result<()> {
    put(rt, "queue", sum(queue))?;
    put(rt, "room", sum(room))
}

fn main(rt: HostRuntime) -> io::Result<()> {
    let mut queue = [0x61u8; QUEUE_SIZE];
    let mut room = [0u8; ROOM_SIZE];
    let mut word = [0u8; 16];
    match rt.arg(1, &mut word) {
        Ok(n) => run(&rt, &word[..n], &mut queue, &mut room)?,
        Err(FillError::TooLong) => usage(&rt)?,
        Err(FillError::NotPresent) => all(&rt, &mut queue, &mut room)?,
    }
    left(&rt, &queue, &room)
}
