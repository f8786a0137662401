// Puts byte strings through the reader, messages through the writer and numbers through the ration, a line each.
//
// The byte strings are on standard input, the file stdin, which says how its lines are read. The expected output, the file
// stdout, is made by hand from the published tables, where each byte string is looked up row by row, and from the rules of the
// ration; none of its lines is copied from a run.
#![tactic(auto)]

mod rations;
mod reads;
mod show;
mod writes;

use std::io;

fn main(rt: HostRuntime) -> io::Result<()> {
    let mut input = [0u8; 16384];
    let n = input_bytes::read_full(&mut rt.stdin(), &mut input)?;
    reads::all(&rt, text_line::first(&input, n))?;
    writes::all(&rt)?;
    rations::all(&rt)
}
