// What is written to standard output.
use engine::{Called, Connection, SLOT_SIZE};
use script_words::{head, to_hex};
use std::io;
use text_line::{Line, first};

// The digits of the most bytes that a call writes: a message with a full slot.
const MOST_DIGITS: usize = 8 + 2 * (SLOT_SIZE as usize);

fn put(rt: &impl Print, line: Line) -> io::Result<()> {
    rt.write_all(line.as_bytes())
}

pub(crate) fn script_error(rt: &impl Print, line: u64) -> io::Result<()> {
    put(
        rt,
        Line::new().item(b"script error at line ", line).text(b"\n"),
    )
}

// Prints the line of a call that wrote something, whose bytes stand between what it answers and its end.
fn wrote(rt: &impl Print, told: Line, bytes: &[u8], end: Line) -> io::Result<()> {
    let mut digits = [0u8; MOST_DIGITS];
    let n = to_hex(bytes, &mut digits);
    put(rt, told.text(b" wrote "))?;
    rt.write_all(first(&digits, 2 * n))?;
    put(rt, end)
}

// Prints the line of a call, behind its name, which is the first word of the line that asks for it.
pub(crate) fn called(
    rt: &impl Print,
    line: &[u8],
    called: Called,
    room: &[u8],
    spoiled: bool,
) -> io::Result<()> {
    let name = Line::new().text(head(line));
    let told = text_state::answered(name, called.answer, called.used);
    if 0 < called.wrote {
        let end = Line::new().flag(b" spoiled", spoiled).text(b"\n");
        wrote(rt, told, first(room, called.wrote), end)
    } else {
        put(rt, told.flag(b" spoiled", spoiled).text(b"\n"))
    }
}

// Prints the lines of the current state.
pub(crate) fn state(rt: &impl Print, c: Connection) -> io::Result<()> {
    put(rt, text_state::connection_line(c).text(b"\n"))?;
    for (number, session) in (0..128u8).zip(&c.sessions) {
        let session = *session;
        if text_state::is_shown(session) {
            put(rt, text_state::session_line(number, session).text(b"\n"))?;
        }
    }
    Ok(())
}

// The slot of a session number in the queue, which may be shorter.
fn slot_of(queue: &[u8], n: u8) -> Option<&[u8]> {
    if 127 < n {
        return None;
    }
    let size = SLOT_SIZE as usize;
    let from = (n as usize) * size;
    queue.get(from..from + size)
}

// Prints the digits of a slot.
fn slot_bytes(rt: &impl Print, slot: &[u8]) -> io::Result<()> {
    let mut line = [b'\n'; 7 + 2 * (SLOT_SIZE as usize)];
    line[..6].copy_from_slice(b"queue ");
    let n = to_hex(slot, &mut line[6..]);
    rt.write_all(first(&line, 7 + 2 * n))
}

// Prints the slot of a session number in the queue.
pub(crate) fn slot(rt: &impl Print, queue: &[u8], n: u8) -> io::Result<()> {
    match slot_of(queue, n) {
        Some(slot) => slot_bytes(rt, slot),
        None => rt.println("queue none"),
    }
}
