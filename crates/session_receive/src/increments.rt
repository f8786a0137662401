// What an IncrementRation received does to one session.
ghost use Rattle.std.specs.Prelude.{◌≡◌};
ghost use Rattle.ration.specs.declared.Ration.{Ration};
ghost use Rattle.wire.specs.declared.Role.{Role};
ghost use Rattle.protocol.specs.Message.{increment_of};
ghost use Rattle.protocol.specs.Receipt.{receipt};
ghost use Rattle.session_receive.specs.Receipt.{receipt_as, to_receipt};

use crate::replies::taken;
use refusal::Violation;
use session::Taken;
use state::{Session, Side, Sides};

// An IncrementRation by its effective amount, which a far side that is not ended may send. To our open side it counts; to any other it
// is late and changes nothing.
#[tactic(auto, using(ration::proofs::Laws::grow_to, session::proofs::Rations::grow_past), unfolding(protocol::specs::Plan::settle, protocol::specs::Receipt::receipt))]
pub fn receive_increment(x: Session, n: u32) -> Result<Taken, Violation>
    ensures { (role : Role) (own far : Ration) → receipt_as result ≡ to_receipt (receipt role own far x (increment_of n)) }
{
    let Sides::Live(ours, Side::Open | Side::Finished) = x.sides else {
        return Err(Violation::WrongState);
    };
    if ours != Side::Open {
        return taken(x, true);
    }
    let outbound = x.outbound.grow(n).ok_or(Violation::PastLargest)?;
    taken(Session { outbound, ..x }, false)
}
