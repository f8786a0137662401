// Messages through the writer.
use crate::show::{put, role_word, with_hex, with_refusal};
use refusal::Refusal;
use std::io;
use text_line::Line;
use text_message::with_message;
use wire::{Message, Role};

// The line with what was written, and the bytes of the room behind it.
fn with_written(line: Line, n: usize, room: &[u8]) -> Line {
    match room.split_at_checked(n) {
        Some((front, back)) => {
            with_hex(
                with_hex(line.text(b": wrote "), front).text(b" then "),
                back,
            )
        }
        None => line,
    }
}

// The line with what a write into a room answers.
fn with_result(line: Line, w: Result<usize, Refusal>, room: &[u8]) -> Line {
    match w {
        Ok(n) => with_written(line, n, room),
        Err(r) => with_hex(with_refusal(line, r.number()).text(b" room "), room),
    }
}

// Writes a message in a room, behind the name of the case.
fn write_to(
    rt: &impl Print,
    name: &str,
    room: &mut [u8],
    from: Role,
    m: Message,
    body: &[u8],
) -> io::Result<()> {
    let w = wire_write::write_message(from, m, body, room);
    let line = Line::new().text(name.as_bytes()).text(b" ");
    let line = line.text(role_word(from).as_bytes()).text(b" ");
    put(rt, with_result(with_message(line, m), w, room))
}

fn write(rt: &impl Print, from: Role, m: Message, body: &[u8]) -> io::Result<()> {
    write_to(rt, "write", &mut [0xEE; 12], from, m, body)
}

// A message with no bytes behind it.
fn write_bare(rt: &impl Print, from: Role, m: Message) -> io::Result<()> {
    write(rt, from, m, b"")
}

fn data(open: bool, close: bool, eof: bool, ack: bool, session: u8, length: u16) -> Message {
    Message::Data {
        open,
        close,
        eof,
        ack_required: ack,
        session,
        length,
    }
}

fn abort(partial: bool, session: u8, length: u16) -> Message {
    Message::Abort {
        partial,
        session,
        length,
    }
}

fn increment(shift: u8, session: u8, amount: u16) -> Message {
    Message::IncrementRation {
        shift,
        session,
        increment: amount,
    }
}

// Each type of message of a connection from a sender that may send it.
fn messages(rt: &impl Print) -> io::Result<()> {
    write(rt, Role::Client, Message::NoOperation { length: 2 }, b"hi")?;
    write_bare(rt, Role::Server, Message::Shutdown { length: 0 })?;
    write_bare(rt, Role::Client, Message::Ping { cookie: 4660 })?;
    write_bare(rt, Role::Server, Message::PingAck { cookie: 4660 })?;
    write_bare(rt, Role::Server, Message::Error { length: 0 })
}

// Each type of message of a session from a sender that may send it.
fn session_messages(rt: &impl Print) -> io::Result<()> {
    write_bare(rt, Role::Client, increment(7, 127, 65535))?;
    write_bare(rt, Role::Server, abort(true, 7, 0))?;
    write_bare(rt, Role::Server, Message::Close { session: 7 })?;
    write_bare(rt, Role::Client, Message::Acknowledgment { session: 7 })?;
    write(
        rt,
        Role::Client,
        data(true, false, false, false, 5, 3),
        b"abc",
    )?;
    write(
        rt,
        Role::Server,
        data(false, true, true, true, 127, 1),
        b"z",
    )
}

// Messages and flags of the other sender.
fn senders(rt: &impl Print) -> io::Result<()> {
    write_bare(rt, Role::Client, Message::Shutdown { length: 0 })?;
    write_bare(rt, Role::Server, Message::Acknowledgment { session: 7 })?;
    write_bare(rt, Role::Client, abort(true, 7, 0))?;
    write_bare(rt, Role::Server, data(true, false, false, false, 5, 0))?;
    write_bare(rt, Role::Server, data(false, true, false, false, 5, 0))
}

// A Data message of a client with no flags.
fn plain(session: u8, length: u16) -> Message {
    data(false, false, false, false, session, length)
}

// Values and lengths that the reader would not give back.
fn values(rt: &impl Print) -> io::Result<()> {
    write_bare(rt, Role::Server, Message::Close { session: 128 })?;
    write_bare(rt, Role::Client, increment(8, 5, 1))?;
    write(rt, Role::Client, plain(5, 3), b"ab")?;
    write(rt, Role::Client, Message::Ping { cookie: 1 }, b"x")
}

// Rooms that are too small, and one that is just large enough; a value is judged before the room.
fn rooms(rt: &impl Print) -> io::Result<()> {
    write(rt, Role::Client, plain(5, 9), b"123456789")?;
    write_to(
        rt,
        "write short",
        &mut [0xEE; 6],
        Role::Client,
        plain(5, 3),
        b"abc",
    )?;
    write_to(
        rt,
        "write short",
        &mut [0xEE; 6],
        Role::Client,
        plain(5, 2),
        b"ab",
    )?;
    write_to(
        rt,
        "write short",
        &mut [0xEE; 6],
        Role::Client,
        plain(128, 3),
        b"abc",
    )
}

// Writes a connection header in a room, behind the name of the case.
fn header_to(rt: &impl Print, name: &str, room: &mut [u8], n: u16) -> io::Result<()> {
    let w = wire_connection_header::write_connection_header(n, room);
    let line = Line::new().text(name.as_bytes()).item(b" ", n as u64);
    put(rt, with_result(line, w, room))
}

fn connection(rt: &impl Print) -> io::Result<()> {
    header_to(rt, "write header", &mut [0xEE; 10], 4)?;
    header_to(rt, "write header", &mut [0xEE; 10], 65535)?;
    header_to(rt, "write short header", &mut [0xEE; 7], 4)
}

pub(crate) fn all(rt: &impl Print) -> io::Result<()> {
    messages(rt)?;
    session_messages(rt)?;
    senders(rt)?;
    values(rt)?;
    rooms(rt)?;
    connection(rt)
}
