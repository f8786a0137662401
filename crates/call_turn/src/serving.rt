// The session that a turn serves: its message is written, and the bytes that are sent leave its slot.
ghost use Rattle.std.specs.Prelude.{◌≡◌, ◌≤◌, ◌<◌, length};
ghost use Rattle.protocol.specs.Slot.{slot_size, queue_size, turn_room};
ghost use Rattle.protocol.specs.Connection.{at};
ghost use Rattle.protocol.specs.Call.{serving};
ghost use Rattle.protocol.specs.Result.{called_as, decided};
ghost use Rattle.call_turn.specs.Turned.{with_served, turn_gives};

use call_checks::{answered, refused};
use call_slots::{slot_start, take_from};
use connection::{far_start, own_start, session_at, with_session};
use connection_output::{of_session, write_with};
use session::SLOT_SIZE;
use session_send::step_turn;
use state::{Answer, Called, Connection, Session};

// The connection with another session for number n, and n as the number served last.
fn with_served(c: Connection, n: u8, x: Session) -> Connection
    ensures { result ≡ with_served c n x }
{
    Connection {
        last: n,
        ..with_session(c, n, x)
    }
}

// Serves a session: the message goes out with the first bytes of its slot, which then leave the slot.
pub(crate) fn serve(c: Connection, n: u8, queue: &mut [u8], room: &mut [u8]) -> Called
    requires { (n < 128) × ((at c n).waiting ≤ slot_size) × (length queue.old ≡ queue_size) × (turn_room ≤ length room.old) }
    ensures { (called_as result, queue.new, room.new) ≡ turn_gives c queue.old room.old (decided (serving c n)) }
{
    let x = session_at(c, n);
    match step_turn(own_start(c), far_start(c), x) {
        Ok(taken) => {
            let start = slot_start(n);
            let end = start + (SLOT_SIZE as usize);
            let wrote = write_with(of_session(n, taken.sent), &queue[start..end], room);
            take_from(queue, n, x.waiting, x.waiting - taken.session.waiting);
            answered(
                with_served(c, n, taken.session),
                Ok(Answer::Served(n)),
                wrote,
            )
        }
        Err(refusal) => refused(c, refusal),
    }
}
