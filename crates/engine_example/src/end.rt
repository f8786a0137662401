// One end of a connection, and what it asks of the engine.
use engine::{Called, Connection, Message, Outcome, QUEUE_SIZE, Role, SLOT_SIZE, Session, Setup};
use std::io;
use text_line::first;

// The room that turn needs; no other call needs more.
const ROOM_SIZE: usize = 4 + (SLOT_SIZE as usize);

// The most turns that send something: each sends a byte of the queue, or the end of a session.
const MOST_TURNS: usize = QUEUE_SIZE + 128;

// The session that a client opens.
const REQUEST: u8 = 5;

// What is kept between calls: the connection, its queue, and the room for what a call writes.
#[derive(Drop)]
pub(crate) struct End {
    role: Role,
    connection: Connection,
    queue: [u8; QUEUE_SIZE],
    room: [u8; ROOM_SIZE],
}

impl End {
    pub(crate) fn new(role: Role) -> End {
        End {
            role,
            connection: Connection::new(Setup { role, header: 4 }),
            queue: [0u8; QUEUE_SIZE],
            room: [0u8; ROOM_SIZE],
        }
    }

    // The session of a client's request.
    pub(crate) fn request(&self) -> Session {
        self.connection.sessions[5]
    }

    // A connection goes on until it is over, and at a client until the outcome of the request is known.
    pub(crate) fn goes_on(&self) -> bool {
        let outcome = self.request().outcome;
        !self.connection.over && matches!(outcome, Outcome::None | Outcome::Running)
    }

    // Keeps the connection that a call gives, and sends what it wrote. A write that fails ends this program.
    pub(crate) fn take(&mut self, rt: &impl Print, called: &Called) -> io::Result<()> {
        self.connection = called.connection;
        rt.write_all(first(&self.room, called.wrote))
    }

    // A client sends its header at once; at a server start is refused, and changes nothing.
    pub(crate) fn start(&mut self, rt: &impl Print) -> io::Result<()> {
        let called = engine::start(self.connection, &mut self.room);
        self.take(rt, &called)
    }

    // What receive makes of the input; nothing is kept or sent yet.
    pub(crate) fn receive(&mut self, input: &[u8]) -> Called {
        engine::receive(self.connection, input, &mut self.room)
    }

    // The line is lost.
    pub(crate) fn lose(&mut self) {
        let called = engine::lost_line(self.connection);
        self.connection = called.connection;
    }

    // Queues bytes for a session, and its end behind them. Nothing is written yet.
    fn say(&mut self, n: u8, bytes: &[u8]) {
        let queued = engine::put(self.connection, n, bytes, &mut self.queue);
        let finished = engine::finish(queued.connection, n);
        self.connection = finished.connection;
    }

    // Sends Data messages until no session has anything that it may send.
    fn take_turns(&mut self, rt: &impl Print) -> io::Result<()> {
        for _ in 0..MOST_TURNS {
            let called = engine::turn(self.connection, &mut self.queue, &mut self.room);
            self.take(rt, &called)?;
            if called.wrote == 0 {
                break;
            }
        }
        Ok(())
    }

    // The headers are exchanged: a client makes its request.
    pub(crate) fn at_header(&mut self, rt: &impl Print) -> io::Result<()> {
        if self.role == Role::Server {
            return Ok(());
        }
        let opened = engine::open_session(self.connection, REQUEST);
        self.connection = opened.connection;
        self.say(REQUEST, b"abc");
        self.take_turns(rt)
    }

    // Lets the other end send as much again as it has sent. Where that is not allowed any more, it is refused and changes nothing.
    fn grant_again(&mut self, rt: &impl Print, n: u8, length: u16) -> io::Result<()> {
        let called = engine::grant(self.connection, n, u32::from(length), &mut self.room);
        self.take(rt, &called)
    }

    // A server closes a session whose end is sent; before that it is refused and changes nothing.
    fn close(&mut self, rt: &impl Print, n: u8) -> io::Result<()> {
        if self.role == Role::Client {
            return Ok(());
        }
        let called = engine::close(self.connection, n, &mut self.room);
        self.take(rt, &called)
    }

    // A server answers a request that is complete.
    fn answer(&mut self, n: u8) {
        if self.role == Role::Server {
            self.say(n, b"ok");
        }
    }

    // What is done at a message.
    pub(crate) fn at_message(&mut self, rt: &impl Print, message: Message) -> io::Result<()> {
        match message {
            Message::Data {
                eof: true,
                session,
                ..
            } => self.answer(session),
            Message::Data {
                session,
                length,
                ..
            } => self.grant_again(rt, session, length)?,
            _ => {}
        }
        self.take_turns(rt)?;
        self.close(rt, wire_fields::second_byte(message))
    }
}
