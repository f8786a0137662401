// The checks that calls share, in their order: the state, the headers, the room, the number.
ghost use Rattle.std.specs.Prelude.{◌≡◌};
ghost use Rattle.refusal.specs.Number.{refusal_number};
ghost use Rattle.protocol.specs.Plan.{check, take};
ghost use Rattle.protocol.specs.Call.{running, up_and_running, room_for, number_in};
ghost use Rattle.call_checks.specs.Gate.{gate_as, to_gate};

use connection::exchanged;
use connection_check::well_formed;
use refusal::Refusal;
use state::Connection;

// One check, which refuses if it fails.
#[tactic(auto, unfolding(protocol::specs::Plan::settle))]
pub fn refuse_if(fails: bool, refusal: Refusal) -> Result<(), Refusal>
    ensures { gate_as result ≡ to_gate (check fails (refusal_number refusal) (take tt)) }
{
    if fails {
        return Err(refusal);
    }
    Ok(())
}

// The state is well formed, and the connection is not over.
pub fn is_running(c: Connection) -> Result<(), Refusal>
    ensures { gate_as result ≡ to_gate (running c (take tt)) }
{
    refuse_if(!well_formed(c), Refusal::IllFormed)?;
    refuse_if(c.over, Refusal::Over)
}

// The state is well formed, the connection is not over, and the headers are exchanged.
pub fn is_up(c: Connection) -> Result<(), Refusal>
    ensures { gate_as result ≡ to_gate (up_and_running c (take tt)) }
{
    is_running(c)?;
    refuse_if(!exchanged(c.stage), Refusal::NotExchanged)
}

// The checks of start, which writes 8 bytes.
pub fn to_start(c: Connection, room: usize) -> Result<(), Refusal>
    ensures { gate_as result ≡ to_gate (running c (room_for 8 room (take tt))) }
{
    is_running(c)?;
    refuse_if(room < 8, Refusal::WrongRoom)
}

// The checks of a call that writes 4 bytes.
pub fn to_write(c: Connection, room: usize) -> Result<(), Refusal>
    ensures { gate_as result ≡ to_gate (up_and_running c (room_for 4 room (take tt))) }
{
    is_up(c)?;
    refuse_if(room < 4, Refusal::WrongRoom)
}

// The checks of a call on a session; the call writes nothing.
pub fn to_session(c: Connection, n: u8) -> Result<(), Refusal>
    ensures { gate_as result ≡ to_gate (up_and_running c (number_in n (take tt))) }
{
    is_up(c)?;
    refuse_if(128 <= n, Refusal::NoSuchSession)
}

// The checks of a call on a session; the call writes 4 bytes.
pub(crate) fn to_write_session(c: Connection, n: u8, room: usize) -> Result<(), Refusal>
    ensures { gate_as result ≡ to_gate (up_and_running c (room_for 4 room (number_in n (take tt)))) }
{
    to_write(c, room).and(refuse_if(128 <= n, Refusal::NoSuchSession))
}
