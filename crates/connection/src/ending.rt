// How a connection ends, and what becomes of its sessions.
ghost use Rattle.std.specs.Prelude.{◌≡◌, map};
ghost use Rattle.protocol.specs.Connection.{unless_sent, unless_finished, ending, ended as connection_ended};
ghost use Rattle.connection.specs.Cause.{cause_as};

use crate::Cause;
use session::parts::settled;
use state::{Connection, Outcome, Session, Side, Sides};

// A session that was sent must not be retried, an opening may be.
fn unless_sent(sides: Sides) -> Outcome
    ensures { result ≡ unless_sent sides }
{
    match sides {
        Sides::Opening(_) => Outcome::MayRetry,
        Sides::Idle | Sides::Live(_, _) => Outcome::MustNotRetry,
    }
}

// A session whose far side is finished is complete, the others are as with a lost line.
fn unless_finished(sides: Sides) -> Outcome
    ensures { result ≡ unless_finished sides }
{
    match sides {
        Sides::Live(_, Side::Finished) => Outcome::Complete,
        _ => unless_sent(sides),
    }
}

// What becomes of a session when the connection ends.
pub fn ended_session(cause: Cause, x: Session) -> Session
    ensures { result ≡ ending (cause_as cause) x }
{
    match cause {
        Cause::ShutdownReceived => settled(x, Outcome::MayRetry),
        Cause::ErrorReceived => settled(x, unless_finished(x.sides)),
        Cause::OwnShutdown => x,
        Cause::LineLost => settled(x, unless_sent(x.sides)),
    }
}

// The connection, ended by a cause.
pub fn ended(c: Connection, cause: Cause) -> Connection
    ensures { result ≡ connection_ended (cause_as cause) c }
{
    Connection {
        sessions: c.sessions.map(|x| ended_session(cause, x)),
        over: true,
        ..c
    }
}
