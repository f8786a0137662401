// A client that makes calls of the engine and stores what is due after each of them, before it sends what the call wrote.
use crate::show;
use engine::{Called, Connection, QUEUE_SIZE, Role, SLOT_SIZE, Setup};
use journal_keep::{Starts, keep, keep_some};
use std::io;
use text_line::first;

// The room that turn needs; no other call needs more.
const ROOM_SIZE: usize = 4 + (SLOT_SIZE as usize);

// The connection, and what is held between keeps.
#[derive(Drop)]
pub(crate) struct Client {
    pub connection: Connection,
    pub starts: Starts,
}

// A call of the engine: what is received is the server's header, or a message of four bytes by its first byte and its session.
#[derive(Clone, Copy)]
pub(crate) enum Ask {
    Start,
    ReceiveHeader,
    Open(u8),
    Turn,
    Abort(u8),
    Receive(u8, u8),
    Lost,
}

// Makes a call of the engine.
fn call(
    c: Connection,
    ask: Ask,
    queue: &mut [u8; QUEUE_SIZE],
    room: &mut [u8; ROOM_SIZE],
) -> Called {
    match ask {
        Ask::Start => engine::start(c, room),
        Ask::ReceiveHeader => engine::receive(c, b"Jmux\x01\x00\x04\x00", room),
        Ask::Open(n) => engine::open_session(c, n),
        Ask::Turn => engine::turn(c, queue, room),
        Ask::Abort(n) => engine::abort(c, n, false, room),
        Ask::Receive(byte, n) => engine::receive(c, &[byte, n, 0, 0], room),
        Ask::Lost => engine::lost_line(c),
    }
}

// What a call wrote: the first bytes of its room.
fn written_by(called: Called, room: &[u8; ROOM_SIZE]) -> &[u8] {
    first(room, called.wrote)
}

// Stores what is due after a call, with as many byte stores before power is cut, or all.
fn store_due(
    region: &mut [u8],
    starts: Starts,
    called: Called,
    written: &[u8],
    stores: Option<usize>,
) -> Starts {
    let Called {
        connection,
        answer,
        ..
    } = called;
    match stores {
        None => keep(region, starts, connection, answer, written),
        Some(stores) => keep_some(region, starts, connection, answer, written, stores),
    }
}

// Makes a call, stores what is due after it, and only then sends what it wrote, or withholds it.
fn step_with(
    rt: &impl Print,
    client: Client,
    ask: Ask,
    stores: Option<usize>,
    region: &mut [u8],
    queue: &mut [u8; QUEUE_SIZE],
) -> io::Result<Client> {
    let mut room = [0u8; ROOM_SIZE];
    let called = call(client.connection, ask, queue, &mut room);
    let written = written_by(called, &room);
    let starts = store_due(region, client.starts, called, written, stores);
    show::called(rt, ask, called, starts.stopped, written)?;
    let connection = called.connection;
    Ok(Client { connection, starts })
}

// A step while power lasts.
pub(crate) fn step(
    rt: &impl Print,
    client: Client,
    ask: Ask,
    region: &mut [u8],
    queue: &mut [u8; QUEUE_SIZE],
) -> io::Result<Client> {
    step_with(rt, client, ask, None, region, queue)
}

// A step whose keep is cut after this many byte stores.
pub(crate) fn step_cut(
    rt: &impl Print,
    client: Client,
    ask: Ask,
    stores: usize,
    region: &mut [u8],
    queue: &mut [u8; QUEUE_SIZE],
) -> io::Result<Client> {
    step_with(rt, client, ask, Some(stores), region, queue)
}

// A new connection, for which no start is stored, with its headers exchanged.
pub(crate) fn connect(
    rt: &impl Print,
    region: &mut [u8],
    queue: &mut [u8; QUEUE_SIZE],
) -> io::Result<Client> {
    let connection = Connection::new(Setup {
        role: Role::Client,
        header: 4,
    });
    let fresh = Client {
        connection,
        starts: Starts::new(),
    };
    let started = step(rt, fresh, Ask::Start, region, queue)?;
    step(rt, started, Ask::ReceiveHeader, region, queue)
}
