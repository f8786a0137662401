// Put and finish: bytes wait behind those that already wait, and the end of our side is asked for.
ghost use Rattle.std.specs.Prelude.{◌≡◌, not, ◌||◌};
ghost use Rattle.protocol.specs.Ask.{sends as ask_sends, put_ask, finish_ask};
ghost use Rattle.session.specs.Step.{stepped_as, to_stepped};

use refusal::Refusal;
use session::Taken;
use session::parts::{fits_slot, sends, taken};
use state::Session;

// Whether our side is neither opening nor open, or a finish was asked before.
fn is_barred(x: Session) -> bool
    ensures { result ≡ (not (ask_sends x.sides) || x.finish) }
{
    !sends(x.sides) || x.finish
}

// Puts n bytes: they wait behind those that wait already.
#[tactic(auto, unfolding(protocol::specs::Plan::settle, protocol::specs::Ask::put_ask))]
pub fn step_put(x: Session, n: usize) -> Result<Taken, Refusal>
    ensures { stepped_as result ≡ to_stepped (put_ask x n) }
{
    if is_barred(x) {
        return Err(Refusal::WrongState);
    }
    if !fits_slot(x.waiting, n) {
        return Err(Refusal::SlotFull);
    }
    taken(x.with_waiting(x.waiting + n as u16, x.finish), None)
}

// Asks for the end of our side.
#[tactic(auto, unfolding(protocol::specs::Plan::settle, protocol::specs::Ask::finish_ask))]
pub fn step_finish(x: Session) -> Result<Taken, Refusal>
    ensures { stepped_as result ≡ to_stepped (finish_ask x) }
{
    if is_barred(x) {
        return Err(Refusal::WrongState);
    }
    taken(x.with_waiting(x.waiting, true), None)
}
