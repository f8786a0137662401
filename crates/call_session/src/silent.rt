// The calls on one session that write nothing: open and finish.
ghost use Rattle.std.specs.Prelude.{◌≡◌};
ghost use Rattle.protocol.specs.Result.{called_as, open_call, finish_call};

use crate::stepping::take_step;
use connection::{role_of, session_at};
use state::{Called, Connection};

// Opens a session; only a client may.
pub fn open_session(c: Connection, n: u8) -> Called
    ensures { called_as result ≡ open_call c n }
{
    let stepped = session_open::step_open(role_of(c.stage), session_at(c, n));
    take_step(c, n, stepped)
}

// Asks for the end of our side, after the waiting bytes.
pub fn finish(c: Connection, n: u8) -> Called
    ensures { called_as result ≡ finish_call c n }
{
    let stepped = session_send::step_finish(session_at(c, n));
    take_step(c, n, stepped)
}
