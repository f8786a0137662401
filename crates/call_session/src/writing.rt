// The calls on one session that write a message: grant, abort and close.
ghost use Rattle.std.specs.Prelude.{◌≡◌};
ghost use Rattle.protocol.specs.Result.{called_as, grant_call, abort_call, close_call};

use call_checks::take_step_in;
use connection::{role_of, session_at};
use state::{Called, Connection};

// Grants the far end more bytes.
pub fn grant(c: Connection, n: u8, amount: u32, room: &mut [u8]) -> Called
    ensures { (called_as result, room.new) ≡ grant_call c n amount room.old }
{
    let stepped = session_grant::step_grant(session_at(c, n), amount);
    take_step_in(c, n, stepped, room)
}

// Ends our side at once and drops what waits.
pub fn abort(c: Connection, n: u8, partial: bool, room: &mut [u8]) -> Called
    ensures { (called_as result, room.new) ≡ abort_call c n partial room.old }
{
    let stepped = session_end::step_abort(role_of(c.stage), session_at(c, n), partial);
    take_step_in(c, n, stepped, room)
}

// Closes a session; only a server may.
pub fn close(c: Connection, n: u8, room: &mut [u8]) -> Called
    ensures { (called_as result, room.new) ≡ close_call c n room.old }
{
    let stepped = session_end::step_close(role_of(c.stage), session_at(c, n));
    take_step_in(c, n, stepped, room)
}
