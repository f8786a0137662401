// A line: one call, what it answers and writes, and what it changes.
use crate::call::{ask, with_call};
use crate::compare::{Change, compared};
use crate::show::{part, rest, with_bytes};
use connection::{role_of, session_at};
use engine::{Answer, Called, Connection, Outcome, QUEUE_SIZE, Role, SLOT_SIZE};
use engine_marks::is_filled;
use script_lines::Call;
use std::io;
use text_line::{Line, first};

// The room of each call: 12 bytes more than a turn needs.
const ROOM_SIZE: usize = 16 + (SLOT_SIZE as usize);

// One end with its queue, from call to call.
#[derive(Drop)]
pub(crate) struct Bench {
    connection: Connection,
    queue: [u8; QUEUE_SIZE],
}

// The word of an end.
pub(crate) fn end_word(c: &Connection) -> &'static str {
    match role_of(c.stage) {
        Role::Client => "client",
        Role::Server => "server",
    }
}

fn fate_words(fate: Outcome) -> &'static str {
    match fate {
        Outcome::None => "none",
        Outcome::Running => "running",
        Outcome::Complete => "complete",
        Outcome::MayRetry => "may be retried",
        Outcome::MustNotRetry => "must not be retried",
    }
}

fn change_word(change: Change) -> &'static str {
    match change {
        Change::Same => "same",
        Change::Over => "over",
        Change::Changed => "changed",
    }
}

// The line with the answer behind its end, and the bytes used, where its words do not include them.
fn with_answer(line: Line, called: &Called) -> Line {
    let line = text_state::answered(line.text(b":"), called.answer, called.used);
    let told = matches!(
        called.answer,
        Ok(Answer::Header(_) | Answer::Message { .. })
    );
    if !told && 0 < called.used {
        return line.item(b" used ", called.used as u64);
    }
    line
}

// The line with the payload among the bytes received behind its end.
fn with_payload(line: Line, bytes: &[u8], start: usize, end: usize) -> Line {
    if start < end {
        return with_bytes(line.text(b" payload "), part(bytes, start, end));
    }
    line
}

// The bytes written and the one behind them, and a complaint if any byte behind them is not as lent.
fn written(wrote: usize, room: &[u8]) -> Line {
    let spoiled = !is_filled(room, wrote, 0xEE);
    if wrote == 0 {
        return Line::new().flag(b" spoiled", spoiled);
    }
    let line = with_bytes(Line::new().text(b" wrote "), first(room, wrote));
    with_bytes(line.text(b" then "), first(rest(room, wrote), 1)).flag(b" spoiled", spoiled)
}

// The end, and the call with its numbers and bytes.
fn question(c: &Connection, asked: Call, bytes: &[u8]) -> Line {
    let end = Line::new().text(end_word(c).as_bytes());
    let line = with_call(end.text(b" "), asked);
    if bytes.is_empty() {
        return line;
    }
    with_bytes(line.text(b" "), bytes)
}

fn put(rt: &impl Print, line: Line) -> io::Result<()> {
    rt.write_all(line.as_bytes())
}

impl Bench {
    // An end with a queue that no call has written.
    pub(crate) fn new(connection: Connection) -> Bench {
        Bench {
            connection,
            queue: [0xDDu8; QUEUE_SIZE],
        }
    }

    // Makes one call, with the bytes of a put or a receive, and prints its line.
    pub(crate) fn call(&mut self, rt: &impl Print, asked: Call, bytes: &[u8]) -> io::Result<()> {
        let before = self.connection;
        let mut queue = self.queue;
        let mut room = [0xEEu8; ROOM_SIZE];
        put(rt, question(&before, asked, bytes))?;
        let called = ask(before, asked, bytes, &mut queue, &mut room);
        let told = with_answer(Line::new(), &called);
        put(rt, with_payload(told, bytes, called.start, called.end))?;
        let what = change_word(compared(&before, &called.connection));
        let same_queue = check::same(&self.queue, &queue);
        let told = written(called.wrote, &room)
            .text(b", ")
            .text(what.as_bytes());
        put(rt, told.flag(b", queue changed", !same_queue).text(b"\n"))?;
        self.connection = called.connection;
        self.queue = queue;
        Ok(())
    }

    // Prints the first bytes of slot 5 with the one before them, and its last byte with the one behind it.
    pub(crate) fn slot_5(&self, rt: &impl Print) -> io::Result<()> {
        let size = SLOT_SIZE as usize;
        let start = 5 * size;
        let end = start + size;
        let name = Line::new().text(b"slot 5: ");
        let front = with_bytes(name, part(&self.queue, start - 1, start + 4));
        let both = with_bytes(front.text(b" .. "), part(&self.queue, end - 1, end + 1));
        put(rt, both.text(b"\n"))
    }

    // Prints the fate of a session.
    pub(crate) fn fate(&self, rt: &impl Print, n: u8) -> io::Result<()> {
        let session = session_at(self.connection, n);
        let name = Line::new().item(b"fate of ", n as u64).text(b": ");
        let fate = fate_words(session.outcome);
        put(rt, name.text(fate.as_bytes()).text(b"\n"))
    }
}
