// What an Abort, a Close and an Acknowledgment received do to one session.
ghost use Rattle.std.specs.Prelude.{◌≡◌};
ghost use Rattle.ration.specs.declared.Ration.{Ration};
ghost use Rattle.protocol.specs.Message.{abort_of, close_of, acknowledgment_of};
ghost use Rattle.protocol.specs.Receipt.{aborted as receipt_aborted, receipt};
ghost use Rattle.session_receive.specs.Receipt.{receipt_as, to_receipt};

use crate::replies::{reply, taken};
use refusal::Violation;
use session::Taken;
use session::parts::settled;
use state::{Outcome, Session, Side, Sides};
use wire::Role;

// The outcome after an Abort, by its partial flag.
fn aborted(partial: bool) -> Outcome
    ensures { result ≡ receipt_aborted partial }
{
    if partial {
        Outcome::MustNotRetry
    } else {
        Outcome::MayRetry
    }
}

// An Abort, which a far side that is not ended may send. It gets a reply where our side is open, or is a server's finished side.
#[tactic(auto, unfolding(protocol::specs::Plan::settle, protocol::specs::Receipt::receipt))]
pub fn receive_abort(role: Role, x: Session, partial: bool) -> Result<Taken, Violation>
    ensures { (own far : Ration) → receipt_as result ≡ to_receipt (receipt role own far x (abort_of partial)) }
{
    let Sides::Live(ours, Side::Open | Side::Finished) = x.sides else {
        return Err(Violation::WrongState);
    };
    let told = settled(x, aborted(partial));
    match (ours, role) {
        (Side::Open, _) | (Side::Finished, Role::Server) => reply(role, told, Side::Ended),
        _ => taken(told.with_sides(Sides::Live(ours, Side::Ended)), false),
    }
}

// A Close, which a finished far side may send. It gets a reply where our side is open.
#[tactic(auto, unfolding(protocol::specs::Plan::settle, protocol::specs::Receipt::receipt))]
pub fn receive_close(role: Role, x: Session) -> Result<Taken, Violation>
    ensures { (own far : Ration) → receipt_as result ≡ to_receipt (receipt role own far x close_of) }
{
    let Sides::Live(ours, Side::Finished) = x.sides else {
        return Err(Violation::WrongState);
    };
    let closed = settled(x, Outcome::Complete);
    if ours == Side::Open {
        return reply(role, closed, Side::Ended);
    }
    taken(closed.with_sides(Sides::Live(ours, Side::Ended)), false)
}

// An Acknowledgment, which a far side that is not ended may send, changes nothing.
#[tactic(auto, unfolding(protocol::specs::Plan::settle, protocol::specs::Receipt::receipt))]
pub fn receive_acknowledgment(x: Session) -> Result<Taken, Violation>
    ensures { (role : Role) (own far : Ration) → receipt_as result ≡ to_receipt (receipt role own far x acknowledgment_of) }
{
    match x.sides {
        Sides::Live(_, Side::Open | Side::Finished) => taken(x, false),
        _ => Err(Violation::WrongState),
    }
}
