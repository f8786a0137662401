// The state of one end of a connection, and what its calls answer.
#![tactic(auto)]

ghost use Rattle.std.specs.Prelude.{◌≡◌};
ghost use Rattle.state.specs.New.{fresh};
ghost use Rattle.state.specs.With.{with_sides, with_rations, with_waiting, with_outcome, with_stage, with_ping};

use ration::Ration;
use refusal::Failure;
use wire::{Message, Role};

// How far one end of a session is with its sending.
#[derive(Clone, Copy, Debug, PartialEq, Eq)]
pub enum Side {
    Open,
    Finished,
    Ended,
}

// The sides before a client's open; the far side was ended in the last two.
#[derive(Clone, Copy, Debug, PartialEq, Eq)]
pub enum Before {
    Idle,
    Finished,
    Ended,
}

// The two sides of a session number: none, ours opening, or ours and theirs.
#[derive(Clone, Copy, Debug, PartialEq, Eq)]
pub enum Sides {
    Idle,
    Opening(Before),
    Live(Side, Side),
}

// What becomes of a client's session (docs/PROTOCOL.md, "Outcomes"); the claims call it the fate.
#[derive(Clone, Copy, Debug, PartialEq, Eq)]
pub enum Outcome {
    None,
    Running,
    Complete,
    MayRetry,
    MustNotRetry,
}

// One session number.
#[derive(Clone, Copy, Debug, PartialEq, Eq)]
pub struct Session {
    pub sides: Sides,
    pub outbound: Ration,
    pub inbound: Ration,
    pub waiting: u16,
    pub finish: bool,
    pub outcome: Outcome,
}

// How far the connection headers are exchanged: not at all, a client's is sent, or both, with the far end's number.
#[derive(Clone, Copy, Debug, PartialEq, Eq)]
pub enum Stage {
    Fresh(Role),
    Started,
    Up(Role, u16),
}

// One end of a connection. `last` is the number that a turn served last, `own` is our header number, and `ping` is the cookie of the ping
// that is not answered yet.
#[derive(Clone, Copy, Debug, PartialEq, Eq)]
pub struct Connection {
    pub sessions: [Session; 128],
    pub stage: Stage,
    pub over: bool,
    pub own: u16,
    pub last: u8,
    pub ping: Option<u16>,
}

// The parts of a connection that are no sessions.
#[derive(Clone, Copy, Debug, PartialEq, Eq)]
pub struct Head {
    pub stage: Stage,
    pub over: bool,
    pub own: u16,
    pub last: u8,
    pub ping: Option<u16>,
}

// What a connection is made from.
#[derive(Clone, Copy, Debug, PartialEq, Eq)]
pub struct Setup {
    pub role: Role,
    pub header: u16,
}

// What a call that is taken answers.
#[derive(Clone, Copy, Debug, PartialEq, Eq)]
pub enum Answer {
    Done,
    Served(u8),
    Header(u16),
    Message { message: Message, late: bool },
}

// What a call gives: the connection after it, the answer or why there is none, the numbers of bytes used and written, and where in the
// input the payload of a message is.
#[derive(Clone, Copy, Debug, PartialEq, Eq)]
pub struct Called {
    pub connection: Connection,
    pub answer: Result<Answer, Failure>,
    pub used: usize,
    pub wrote: usize,
    pub start: usize,
    pub end: usize,
}

impl Session {
    // A session number that is idle and was never used.
    pub const BLANK: Session = Session {
        sides: Sides::Idle,
        outbound: Ration::Finite(0),
        inbound: Ration::Finite(0),
        waiting: 0,
        finish: false,
        outcome: Outcome::None,
    };

    // The session with other sides.
    pub fn with_sides(self, sides: Sides) -> Session
        ensures { result ≡ with_sides sides self }
    {
        Session { sides, ..self }
    }

    // The session with other rations.
    pub fn with_rations(self, outbound: Ration, inbound: Ration) -> Session
        ensures { result ≡ with_rations outbound inbound self }
    {
        Session {
            outbound,
            inbound,
            ..self
        }
    }

    // The session with this many bytes waiting, and a finish asked for or not.
    pub fn with_waiting(self, waiting: u16, finish: bool) -> Session
        ensures { result ≡ with_waiting waiting finish self }
    {
        Session {
            waiting,
            finish,
            ..self
        }
    }

    // The session with another outcome.
    pub fn with_outcome(self, outcome: Outcome) -> Session
        ensures { result ≡ with_outcome outcome self }
    {
        Session { outcome, ..self }
    }
}

impl Connection {
    // A connection just made.
    pub fn new(setup: Setup) -> Connection
        ensures { result ≡ fresh setup }
    {
        Connection {
            sessions: [Session::BLANK; 128],
            stage: Stage::Fresh(setup.role),
            over: false,
            own: setup.header,
            last: 127,
            ping: None,
        }
    }

    // The connection at another stage.
    pub fn with_stage(self, stage: Stage) -> Connection
        ensures { result ≡ with_stage stage self }
    {
        Connection { stage, ..self }
    }

    // The connection with another ping outstanding, or none.
    pub fn with_ping(self, ping: Option<u16>) -> Connection
        ensures { result ≡ with_ping ping self }
    {
        Connection { ping, ..self }
    }
}
