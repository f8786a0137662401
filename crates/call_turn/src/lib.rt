// Turn: the first ready session after the one served last sends a Data message.
#![tactic(auto)]

mod flags;
mod serving;

ghost use Rattle.std.specs.Prelude.{◌≡◌};
ghost use Rattle.protocol.specs.Slot.{turn_room};
ghost use Rattle.protocol.specs.Plan.{take};
ghost use Rattle.protocol.specs.Call.{up_and_running, room_for, queue_of};
ghost use Rattle.protocol.specs.Result.{called_as, turn_call};
ghost use Rattle.call_checks.specs.Gate.{gate_as, to_gate};

use crate::flags::ready_flags;
use crate::serving::serve;
use call_checks::{is_up, refuse_if, refused};
use call_search::nearest_set;
use call_slots::QUEUE_SIZE;
use refusal::Refusal;
use session::SLOT_SIZE;
use state::{Called, Connection};

// The checks before the search.
fn to_turn(c: Connection, queue: usize, room: usize) -> Result<(), Refusal>
    ensures { gate_as result ≡ to_gate (up_and_running c (room_for turn_room room (queue_of queue (take tt)))) }
{
    is_up(c)?;
    refuse_if(room < 4 + (SLOT_SIZE as usize), Refusal::WrongRoom)?;
    refuse_if(queue != QUEUE_SIZE, Refusal::WrongRoom)
}

// Writes one Data message of the first ready session after the one served last.
pub fn turn(c: Connection, queue: &mut [u8], room: &mut [u8]) -> Called
    ensures { (called_as result, queue.new, room.new) ≡ turn_call c queue.old room.old }
{
    if let Err(refusal) = to_turn(c, queue.len(), room.len()) {
        return refused(c, refusal);
    }
    match nearest_set(&ready_flags(c.sessions), c.last) {
        Some(n) => serve(c, n, queue, room),
        None => refused(c, Refusal::NothingReady),
    }
}
