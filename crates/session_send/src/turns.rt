// A turn for one session: whether it is ready, and the Data message that goes out.
ghost use Rattle.std.specs.Prelude.{◌≡◌, false, ◌≤◌};
ghost use Rattle.protocol.specs.Ask.{due as ask_due, ready_session, sendable, sending as ask_sending, turn_ask};
ghost use Rattle.session.specs.Step.{stepped_as, to_stepped};

use ration::Ration;
use refusal::Refusal;
use session::parts::{after_data, taken};
use session::{Sent, Taken};
use state::{Session, Side, Sides};

// Whether bytes wait and the ration is above 0, or none wait and a finish was asked.
#[tactic(auto, unfolding(laws::specs::Pick::pick))]
fn due(x: Session) -> bool
    ensures { result ≡ ask_due x.waiting x.outbound x.finish }
{
    if x.waiting == 0 {
        x.finish
    } else {
        x.outbound != Ration::Finite(0)
    }
}

// Whether a turn may serve the session.
#[tactic(auto, unfolding(protocol::specs::Ask::ready_session))]
pub fn ready(x: Session) -> bool
    ensures { result ≡ ready_session x }
{
    match x.sides {
        Sides::Opening(_) => true,
        Sides::Live(Side::Open, _) => due(x),
        _ => false,
    }
}

// The smaller of what waits and a ration.
fn smaller(waiting: u16, r: Ration) -> u16
    ensures { (result ≡ sendable waiting r) × (result ≤ waiting) }
{
    match r {
        Ration::Finite(left) if left < waiting as u32 => left as u16,
        _ => waiting,
    }
}

// A Data message goes out with as many of the bytes that wait as the ration allows; so there is always enough to spend.
#[tactic(auto, using(crate::proofs::Sending::spend_sendable), unfolding(protocol::specs::Plan::settle))]
fn send(x: Session, opens: bool, theirs: Side) -> Result<Taken, Refusal>
    ensures { stepped_as result ≡ to_stepped (ask_sending x opens theirs x.outbound x.inbound (sendable x.waiting x.outbound)) }
{
    let length = smaller(x.waiting, x.outbound);
    let outbound = x.outbound.spend(length as u32).unwrap();
    let waiting = x.waiting - length;
    let eof = x.finish && waiting == 0;
    let next = Session {
        sides: Sides::Live(after_data(false, eof), theirs),
        outbound,
        waiting,
        finish: x.finish && !eof,
        ..x
    };
    taken(next, Some(Sent::Data { length, opens, eof }))
}

// Serves a session; `own` and `far` are the starting rations that our header and theirs grant.
#[tactic(auto, unfolding(protocol::specs::Plan::settle, protocol::specs::Ask::turn_ask))]
pub fn step_turn(own: Ration, far: Ration, x: Session) -> Result<Taken, Refusal>
    ensures { stepped_as result ≡ to_stepped (turn_ask own far x) }
{
    match x.sides {
        Sides::Opening(_) => send(x.with_rations(far, own), true, Side::Open),
        Sides::Live(Side::Open, theirs) if due(x) => send(x, false, theirs),
        _ => Err(Refusal::NothingReady),
    }
}
