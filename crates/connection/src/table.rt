// The session of a number, and a connection with another one.
ghost use Rattle.std.specs.Prelude.{◌≡◌};
ghost use Rattle.protocol.specs.Connection.{at};
ghost use Rattle.state.specs.With.{with_session};

use state::{Connection, Session};

// The session of a number; a number above 127 has a blank one.
pub fn session_at(c: Connection, n: u8) -> Session
    ensures { result ≡ at c n }
{
    match c.sessions.get(n as usize) {
        Some(x) => *x,
        None => Session::BLANK,
    }
}

// The connection with another session for a number; a number above 127 changes nothing.
pub fn with_session(mut c: Connection, n: u8, x: Session) -> Connection
    ensures { result ≡ with_session n x c }
{
    if n < 128 {
        c.sessions[n as usize] = x;
    }
    c
}
