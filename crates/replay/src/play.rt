// The lines of a script, played on a connection.
use crate::show;
use engine::{Called, Connection, Setup};
use script_lines::{Beginning, Call, Command};
use std::alloc::{AllocError, Global};
use std::io;

// The byte that fills the room before each call, and the one that fills the queue at first.
const MARK: u8 = 0xee;

const UNUSED: u8 = 0xdd;

// Why a line stops the run.
#[derive(Drop)]
pub(crate) enum Stop {
    // The format has no such line.
    Wrong,
    Failed(io::Error),
}

impl From<io::Error> for Stop {
    fn from(error: io::Error) -> Stop {
        Stop::Failed(error)
    }
}

impl From<AllocError> for Stop {
    fn from(error: AllocError) -> Stop {
        Stop::Failed(io::Error::from(error))
    }
}

// The connection that the first line made, with its queue and the room of its last call.
#[derive(Drop)]
pub(crate) struct Play {
    connection: Connection,
    queue: Vec<u8>,
    room: Vec<u8>,
}

impl Play {
    // Plays the first line: it makes the connection.
    pub(crate) fn begin(alloc: Global, line: &[u8]) -> Result<Play, Stop> {
        let Beginning {
            role,
            header,
            queue,
        } = script_lines::begin(line).ok_or(Stop::Wrong)?;
        Ok(Play {
            connection: Connection::new(Setup { role, header }),
            queue: vec![in alloc; UNUSED; queue]?,
            room: Vec::new(alloc),
        })
    }

    // Plays a line after the first: it makes a call, or prints the current state or a slot of the queue.
    pub(crate) fn line(&mut self, rt: &impl Print, line: &[u8]) -> Result<(), Stop> {
        match script_lines::command_of(line).ok_or(Stop::Wrong)? {
            Command::Call(asked, room) => self.call(rt, asked, line, room)?,
            Command::State => show::state(rt, self.connection)?,
            Command::Queue(n) => show::slot(rt, &self.queue, n)?,
        }
        Ok(())
    }

    // Makes the call in a room of n bytes, and prints its line.
    fn call(&mut self, rt: &impl Print, asked: Call, line: &[u8], n: usize) -> io::Result<()> {
        self.room.truncate(n);
        engine_marks::fill(&mut self.room, MARK);
        self.room.resize(n, MARK)?;
        let called = self.answer(asked, line);
        let spoiled = !engine_marks::is_filled(&self.room, called.wrote, MARK);
        show::called(rt, line, called, &self.room, spoiled)?;
        self.connection = called.connection;
        Ok(())
    }

    // Makes the call itself.
    fn answer(&mut self, asked: Call, line: &[u8]) -> Called {
        let c = self.connection;
        let room = &mut self.room;
        match asked {
            Call::Start => engine::start(c, room),
            Call::Open(n) => engine::open_session(c, n),
            Call::Put(n) => put(c, n, line, &mut self.queue),
            Call::Finish(n) => engine::finish(c, n),
            Call::Turn => engine::turn(c, &mut self.queue, room),
            Call::Grant(n, amount) => engine::grant(c, n, amount, room),
            Call::Abort(n, partial) => engine::abort(c, n, partial, room),
            Call::Close(n) => engine::close(c, n, room),
            Call::Ping(cookie) => engine::ping(c, cookie, room),
            Call::Shutdown => engine::shutdown(c, room),
            Call::Lost => engine::lost_line(c),
            Call::Receive => receive(c, line, room),
        }
    }
}

fn put(c: Connection, n: u8, line: &[u8], queue: &mut [u8]) -> Called {
    let mut bytes = [0u8; 1024];
    let k = script_lines::payload(line, &mut bytes);
    engine::put(c, n, &bytes[..k], queue)
}

fn receive(c: Connection, line: &[u8], room: &mut [u8]) -> Called {
    let mut bytes = [0u8; 66000];
    let k = script_lines::payload(line, &mut bytes);
    engine::receive(c, &bytes[..k], room)
}
