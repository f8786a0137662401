// A call that writes, on one session: the checks that such calls share, then the result of the session's step.
ghost use Rattle.std.specs.Prelude.{◌≡◌, length};
ghost use Rattle.protocol.specs.Result.{called_as, in_room};
ghost use Rattle.session.specs.Step.{stepped_as};
ghost use Rattle.call_checks.specs.Stepped.{stepped_in};

use crate::gates::to_write_session;
use crate::results::{done, refused};
use connection::with_session;
use connection_output::{of_session, write};
use refusal::Refusal;
use session::Taken;
use state::{Called, Connection};

// The result of a call that takes a step of session n and writes.
pub fn take_step_in(
    c: Connection,
    n: u8,
    stepped: Result<Taken, Refusal>,
    room: &mut [u8],
) -> Called
    ensures { (called_as result, room.new) ≡ in_room c room.old (stepped_in c n (length room.old) (stepped_as stepped)) }
{
    match to_write_session(c, n, room.len()).and(stepped) {
        Ok(taken) => {
            let wrote = write(of_session(n, taken.sent), room);
            done(with_session(c, n, taken.session), wrote)
        }
        Err(refusal) => refused(c, refusal),
    }
}
