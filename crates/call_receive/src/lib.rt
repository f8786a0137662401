// The receive call: it takes one whole connection header or message, and writes the reply.
#![tactic(auto)]

mod readings;
mod replies;

ghost use Rattle.std.specs.Prelude.{◌≡◌};
ghost use Rattle.protocol.specs.Call.{unstarted as call_unstarted, receive_gate};
ghost use Rattle.protocol.specs.Result.{called_as, receive_call};
ghost use Rattle.call_checks.specs.Gate.{gate_as, to_gate};

use crate::readings::decide;
use crate::replies::replied;
use call_checks::{is_running, refuse_if, refused};
use refusal::Refusal;
use state::{Called, Connection, Stage};
use wire::Role;

// Whether it is a client that has not sent its header.
fn unstarted(stage: Stage) -> bool
    ensures { result ≡ call_unstarted stage }
{
    matches!(stage, Stage::Fresh(Role::Client))
}

// The checks before the input is read; the longest reply, a header and an Error, has 12 bytes.
fn to_receive(c: Connection, room: usize) -> Result<(), Refusal>
    ensures { gate_as result ≡ to_gate (receive_gate c room) }
{
    is_running(c)?;
    refuse_if(unstarted(c.stage), Refusal::NotExchanged)?;
    refuse_if(room < 12, Refusal::WrongRoom)
}

// Takes the connection header or message at the front of the input, and writes the reply to it.
pub fn receive(c: Connection, input: &[u8], room: &mut [u8]) -> Called
    ensures { (called_as result, room.new) ≡ receive_call c input.now room.old }
{
    if let Err(refusal) = to_receive(c, room.len()) {
        return refused(c, refusal);
    }
    replied(decide(c, input), room)
}
