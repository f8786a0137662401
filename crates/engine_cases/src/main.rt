// Makes the calls of the compiled engine: in states that are broken, with buffers that do not fit, and for each refusal.
//
// The calls to make are on standard input, the file stdin, which says how its lines are read. A row makes each call by itself
// in one state: ok or the number of the refusal, and whether every refusal left the state, the queue and the room as they
// were. A line is one call with what it answers, writes and changes. The first line of output is the sizes of slot and queue.
//
// The expected output, the file stdout, is made by hand from docs/PROTOCOL.md, and none of it is copied from a run.
#![tactic(auto)]

mod call;
mod codes;
mod compare;
mod lines;
mod rows;
mod show;
mod tables;

use engine::{QUEUE_SIZE, SLOT_SIZE};
use std::io;

fn main(rt: HostRuntime) -> io::Result<()> {
    let mut input = [0u8; 16384];
    let n = input_bytes::read_full(&mut rt.stdin(), &mut input)?;
    println!(rt; "slot {SLOT_SIZE}, queue {QUEUE_SIZE}")?;
    tables::put_all(&rt, text_line::first(&input, n))
}
