// Plays a client's calls with a keep after each, case by case, and writes a line for each call and what the journal holds then.
//
// The expected output, the file stdout, is what expected.py prints, a model of the rules that shares nothing with this program.
#![tactic(auto)]

mod client;
mod show;

use client::{Ask, Client, connect, step, step_cut};
use engine::QUEUE_SIZE;
use journal_text::RepairText;
use std::io;

// The sizes of the regions: one block, one block and a byte, and four blocks.
const ONE_BLOCK: usize = 512;

const A_BYTE_MORE: usize = 513;

const FOUR_BLOCKS: usize = 2048;

// The first byte of a server's Data message with eof and close.
const DATA_EOF_CLOSE: u8 = 0x8c;

// The first byte of an Abort message without partial.
const ABORT: u8 = 0x20;

// Opens a session and sends its opening.
fn open_sent(
    rt: &impl Print,
    client: Client,
    number: u8,
    region: &mut [u8],
    queue: &mut [u8; QUEUE_SIZE],
) -> io::Result<Client> {
    let opened = step(rt, client, Ask::Open(number), region, queue)?;
    step(rt, opened, Ask::Turn, region, queue)
}

// The start is stored before the opening is sent, and the fate when the response is whole.
fn request(
    rt: &impl Print,
    region: &mut [u8; FOUR_BLOCKS],
    queue: &mut [u8; QUEUE_SIZE],
) -> io::Result<()> {
    println!(rt; "case request: region of {} bytes", region.len())?;
    let c = open_sent(rt, connect(rt, region, queue)?, 5, region, queue)?;
    step(rt, c, Ask::Receive(DATA_EOF_CLOSE, 5), region, queue)?;
    show::journal(rt, region)
}

// The server lets the request be retried, and the second session of the number has a start of its own.
fn retried(
    rt: &impl Print,
    region: &mut [u8; FOUR_BLOCKS],
    queue: &mut [u8; QUEUE_SIZE],
) -> io::Result<()> {
    println!(rt; "case retried: region of {} bytes", region.len())?;
    let c = open_sent(rt, connect(rt, region, queue)?, 5, region, queue)?;
    let c = step(rt, c, Ask::Receive(ABORT, 5), region, queue)?;
    open_sent(rt, c, 5, region, queue)?;
    show::journal(rt, region)
}

// An opening that is aborted unsent stores nothing, so the start of the number's session before it stays listed.
fn reopened(
    rt: &impl Print,
    region: &mut [u8; FOUR_BLOCKS],
    queue: &mut [u8; QUEUE_SIZE],
) -> io::Result<()> {
    println!(rt; "case reopened: region of {} bytes", region.len())?;
    let c = open_sent(rt, connect(rt, region, queue)?, 5, region, queue)?;
    let c = step(rt, c, Ask::Abort(5), region, queue)?;
    let c = step(rt, c, Ask::Receive(ABORT, 5), region, queue)?;
    let c = step(rt, c, Ask::Open(5), region, queue)?;
    step(rt, c, Ask::Abort(5), region, queue)?;
    show::journal(rt, region)
}

// A lost line gives two sent sessions their fates in one keep, and the opening that is unsent none.
fn lost_line(
    rt: &impl Print,
    region: &mut [u8; FOUR_BLOCKS],
    queue: &mut [u8; QUEUE_SIZE],
) -> io::Result<()> {
    println!(rt; "case lost line: region of {} bytes", region.len())?;
    let c = open_sent(rt, connect(rt, region, queue)?, 5, region, queue)?;
    let c = open_sent(rt, c, 7, region, queue)?;
    let c = step(rt, c, Ask::Open(9), region, queue)?;
    step(rt, c, Ask::Lost, region, queue)?;
    show::journal(rt, region)
}

// No block is free for the fate, so the start stays listed.
fn full(
    rt: &impl Print,
    region: &mut [u8; ONE_BLOCK],
    queue: &mut [u8; QUEUE_SIZE],
) -> io::Result<()> {
    println!(rt; "case full: region of {} bytes", region.len())?;
    let c = open_sent(rt, connect(rt, region, queue)?, 5, region, queue)?;
    step(rt, c, Ask::Lost, region, queue)?;
    show::journal(rt, region)
}

// No block is free for the fate, so the reply and all that later calls write are withheld.
fn full_and_up(
    rt: &impl Print,
    region: &mut [u8; ONE_BLOCK],
    queue: &mut [u8; QUEUE_SIZE],
) -> io::Result<()> {
    println!(rt; "case full, line up: region of {} bytes", region.len())?;
    let c = open_sent(rt, connect(rt, region, queue)?, 5, region, queue)?;
    let c = step(rt, c, Ask::Receive(ABORT, 5), region, queue)?;
    let c = open_sent(rt, c, 7, region, queue)?;
    step(rt, c, Ask::Lost, region, queue)?;
    show::journal(rt, region)
}

// Power is cut before the last byte of a start, and after a repair the start of the next connection has serial 1.
fn cut(
    rt: &impl Print,
    region: &mut [u8; FOUR_BLOCKS],
    queue: &mut [u8; QUEUE_SIZE],
) -> io::Result<()> {
    println!(rt; "case cut: region of {} bytes", region.len())?;
    let c = step(rt, connect(rt, region, queue)?, Ask::Open(5), region, queue)?;
    step_cut(rt, c, Ask::Turn, 511, region, queue)?;
    show::journal(rt, region)?;
    rt.println(RepairText(journal_store::repair(region)))?;
    open_sent(rt, connect(rt, region, queue)?, 5, region, queue)?;
    show::journal(rt, region)
}

// No entry fits a region that is not of whole blocks, so the opening is withheld.
fn wrong_region(
    rt: &impl Print,
    region: &mut [u8; A_BYTE_MORE],
    queue: &mut [u8; QUEUE_SIZE],
) -> io::Result<()> {
    println!(rt; "case wrong region: region of {} bytes", region.len())?;
    open_sent(rt, connect(rt, region, queue)?, 5, region, queue)?;
    show::journal(rt, region)
}

fn main(rt: HostRuntime) -> io::Result<()> {
    let mut queue = [0u8; QUEUE_SIZE];
    request(&rt, &mut [0u8; FOUR_BLOCKS], &mut queue)?;
    retried(&rt, &mut [0u8; FOUR_BLOCKS], &mut queue)?;
    reopened(&rt, &mut [0u8; FOUR_BLOCKS], &mut queue)?;
    lost_line(&rt, &mut [0u8; FOUR_BLOCKS], &mut queue)?;
    full(&rt, &mut [0u8; ONE_BLOCK], &mut queue)?;
    full_and_up(&rt, &mut [0u8; ONE_BLOCK], &mut queue)?;
    cut(&rt, &mut [0u8; FOUR_BLOCKS], &mut queue)?;
    wrong_region(&rt, &mut [0u8; A_BYTE_MORE], &mut queue)
}
