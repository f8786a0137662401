// What Data received does to one session: an open begins it, other Data is counted, or is late.
ghost use Rattle.std.specs.Prelude.{◌≡◌, Bool, true, false, not, IfOk, IfErr};
ghost use Rattle.ration.specs.Ration.{allows};
ghost use Rattle.refusal.specs.declared.Violation.TheVariants.{AboveRation};
ghost use Rattle.protocol.specs.Plan.{check};
ghost use Rattle.protocol.specs.Message.{data_of};
ghost use Rattle.protocol.specs.Session.{inbound_spent};
ghost use Rattle.protocol.specs.Receipt.{closed as receipt_closed, data_to as receipt_data_to, quietly, acceptable as receipt_acceptable, accepted, receipt};
ghost use Rattle.session_receive.specs.Receipt.{receipt_as, to_receipt};

use crate::replies::{reply, taken};
use ration::Ration;
use refusal::Violation;
use session::Taken;
use session::parts::{after_data, settled};
use state::{Outcome, Session, Side, Sides};
use wire::Role;

// What a Data message says: its length and its flags. A request for an acknowledgment is not among them, since it changes nothing.
#[derive(Clone, Copy, Debug, PartialEq, Eq)]
pub struct Data {
    pub length: u16,
    pub opens: bool,
    pub close: bool,
    pub eof: bool,
}

// The session after Data: a close flag completes it.
fn closed(x: Session, close: bool) -> Session
    ensures { result ≡ receipt_closed close x }
{
    if close {
        settled(x, Outcome::Complete)
    } else {
        x
    }
}

// The session with a length spent of its inbound ration.
#[tactic(auto, using(ration::proofs::Laws::spend_gives, ration::proofs::Laws::spend_none))]
fn counted(x: Session, length: u16) -> Result<Session, Violation>
    ensures spent { IfOk result (λ y. (allows x.inbound length ≡ true) × (y ≡ inbound_spent length x)) }
    ensures too_long { IfErr result (λ e. (allows x.inbound length ≡ false) × (e ≡ AboveRation)) }
{
    let inbound = x
        .inbound
        .spend(length as u32)
        .ok_or(Violation::AboveRation)?;
    Ok(Session { inbound, ..x })
}

// Data to our ended side is late; to our open or finished side it is counted, and an open side replies to a close flag.
#[tactic(auto, unfolding(protocol::specs::Plan::settle))]
fn data_to(
    role: Role,
    x: Session,
    received: Data,
    ours: Side,
    theirs: Side,
) -> Result<Taken, Violation>
    ensures { receipt_as result ≡ to_receipt (receipt_data_to role x received.length received.close ours theirs) }
{
    let moved = x.with_sides(Sides::Live(ours, theirs));
    match ours {
        Side::Open if received.close => {
            let completed = settled(counted(moved, received.length)?, Outcome::Complete);
            reply(role, completed, theirs)
        }
        Side::Open => taken(counted(moved, received.length)?, false),
        Side::Finished => {
            let spent = counted(moved, received.length)?;
            taken(closed(spent, received.close), false)
        }
        Side::Ended => taken(closed(moved, received.close), true),
    }
}

// Whether a server takes an open for these sides.
fn acceptable(sides: Sides) -> bool
    ensures { result ≡ receipt_acceptable sides }
{
    matches!(
        sides,
        Sides::Idle | Sides::Live(Side::Ended, Side::Finished | Side::Ended)
    )
}

// An open Data message: both rations are set from the headers, then the length is spent.
#[tactic(auto, unfolding(protocol::specs::Plan::settle))]
fn accept(own: Ration, far: Ration, x: Session, received: Data) -> Result<Taken, Violation>
    ensures { receipt_as result ≡ to_receipt (check (not (receipt_acceptable x.sides)) 25 (check (not (allows own received.length)) 26 (quietly (accepted own far received.length received.close received.eof)))) }
{
    if !acceptable(x.sides) {
        return Err(Violation::WrongState);
    }
    let begun = counted(Session::BLANK.with_rations(far, own), received.length)?;
    let theirs = after_data(received.close, received.eof);
    taken(begun.with_sides(Sides::Live(Side::Open, theirs)), false)
}

// Data; `own` and `far` are the starting rations that our header and theirs grant. Only an open far side may send Data that is no open.
#[tactic(auto, unfolding(protocol::specs::Plan::settle, protocol::specs::Receipt::receipt))]
pub fn receive_data(
    role: Role,
    own: Ration,
    far: Ration,
    x: Session,
    received: Data,
) -> Result<Taken, Violation>
    ensures { (ack : Bool) → receipt_as result ≡ to_receipt (receipt role own far x (data_of received.length received.opens received.close received.eof ack)) }
{
    if received.opens {
        return accept(own, far, x, received);
    }
    match x.sides {
        Sides::Live(ours, Side::Open) => {
            let theirs = after_data(received.close, received.eof);
            data_to(role, x, received, ours, theirs)
        }
        _ => Err(Violation::WrongState),
    }
}
