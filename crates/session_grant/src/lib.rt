// Grant: the far end may send more.
#![tactic(auto)]

ghost use Rattle.std.specs.Prelude.{◌≡◌, ◌||◌, eqb, ltb, not};
ghost use Rattle.protocol.specs.Ask.{may_grant, grant_ask, writing};
ghost use Rattle.protocol.specs.Message.{increment_of};
ghost use Rattle.protocol.specs.Plan.{check};
ghost use Rattle.protocol.specs.Session.{extended};
ghost use Rattle.ration.specs.Ration.{grantable};
ghost use Rattle.session.specs.Step.{stepped_as, to_stepped};

use ration::Ration;
use refusal::Refusal;
use session::parts::taken;
use session::{Sent, Taken};
use state::{Session, Side, Sides};

// Whether our side is open or finished, and theirs open.
fn may_grant(sides: Sides) -> bool
    ensures { result ≡ may_grant sides }
{
    matches!(sides, Sides::Live(Side::Open | Side::Finished, Side::Open))
}

// Whether an amount is 0 or does not fit 16 bits.
fn is_bad_amount(amount: u32) -> bool
    ensures { result ≡ (eqb amount 0 || ltb 65_535 amount) }
{
    amount == 0 || amount > 65535
}

// Grants an amount, if the inbound ration is finite and can grow by it: an IncrementRation goes out.
#[tactic(auto, using(crate::proofs::Growing::grown), unfolding(protocol::specs::Plan::settle))]
fn extend(x: Session, amount: u16) -> Result<Taken, Refusal>
    ensures { stepped_as result ≡ to_stepped (check (not (grantable x.inbound amount)) 7 (writing (increment_of amount) (extended amount x))) }
{
    match x.inbound.grow(amount as u32) {
        Some(inbound @ Ration::Finite(_)) => taken(
            Session { inbound, ..x },
            Some(Sent::Increment(amount)),
        ),
        Some(Ration::Endless) | None => Err(Refusal::GrantTooLarge),
    }
}

// Grants the far end more bytes.
#[tactic(auto, unfolding(protocol::specs::Plan::settle, protocol::specs::Ask::grant_ask))]
pub fn step_grant(x: Session, amount: u32) -> Result<Taken, Refusal>
    ensures { stepped_as result ≡ to_stepped (grant_ask x amount) }
{
    if !may_grant(x.sides) {
        return Err(Refusal::WrongState);
    }
    if is_bad_amount(amount) {
        return Err(Refusal::BadValue);
    }
    extend(x, amount as u16)
}
