// Whether a connection is well formed: a test of each of its 128 sessions.
#![tactic(auto)]

ghost use Rattle.std.specs.Prelude.{◌≡◌};
ghost use Rattle.wire.specs.Message.{only_if};
ghost use Rattle.protocol.specs.Connection.{placed as connection_placed, session_formed, well_formed};

use connection::{exchanged, role_of};
use session::SLOT_SIZE;
use session::parts::sends;
use state::{Connection, Session, Sides};
use wire::Role;

// Whether the first is set only if the second holds.
fn only_if(set: bool, holds: bool) -> bool
    ensures { result ≡ only_if set holds }
{
    !set || holds
}

// Whether these sides may be there: no opening at a server, and only idle numbers before the headers are exchanged.
fn placed(role: Role, up: bool, sides: Sides) -> bool
    ensures { result ≡ connection_placed role up sides }
{
    match sides {
        Sides::Idle => true,
        Sides::Opening(_) => role == Role::Client && up,
        Sides::Live(_, _) => up,
    }
}

// Whether a session is as the rules leave one: rations in range, waiting bytes and a finish only where our side sends.
#[tactic(auto, unfolding(protocol::specs::Connection::session_formed))]
fn session_formed(role: Role, up: bool, x: Session) -> bool
    ensures { result ≡ session_formed role up x }
{
    let may_send = sends(x.sides);
    x.outbound.in_range()
        && x.inbound.in_range()
        && x.waiting <= SLOT_SIZE
        && only_if(!may_send, x.waiting == 0)
        && only_if(x.finish, may_send)
        && placed(role, up, x.sides)
}

// Whether the last number served is a session number, and all sessions are well formed.
pub fn well_formed(c: Connection) -> bool
    ensures { result ≡ well_formed c }
{
    let role = role_of(c.stage);
    let up = exchanged(c.stage);
    let numbered = c.last < 128;
    numbered && c.sessions.iter().all(|x| session_formed(role, up, *x))
}
