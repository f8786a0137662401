// The script of a replay: what a line asks.
#![tactic(auto)]

mod calls;
mod names;

pub use calls::{begin, command_of, payload};
use wire::Role;

// A call of the engine; the bytes of put and receive are in the line.
#[derive(Clone, Copy)]
pub enum Call {
    Start,
    Open(u8),
    Put(u8),
    Finish(u8),
    Turn,
    Grant(u8, u32),
    Abort(u8, bool),
    Close(u8),
    Ping(u16),
    Shutdown,
    Lost,
    Receive,
}

// What a line asks: a call with a length of room, or a print of the state or of a slot of the queue.
#[derive(Clone, Copy)]
pub enum Command {
    Call(Call, usize),
    State,
    Queue(u8),
}

// What the first line says: a connection's role, header number and queue length.
#[derive(Clone, Copy)]
pub struct Beginning {
    pub role: Role,
    pub header: u16,
    pub queue: usize,
}

// What a line's first word names.
#[derive(Clone, Copy)]
pub enum Name {
    Start,
    Open,
    Put,
    Finish,
    Turn,
    Grant,
    Abort,
    Close,
    Ping,
    Shutdown,
    Lost,
    Receive,
    State,
    Queue,
}
