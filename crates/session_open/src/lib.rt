// Open: a client's session begins, with nothing sent yet.
#![tactic(auto)]

ghost use Rattle.std.specs.Prelude.{◌≡◌};
ghost use Rattle.protocol.specs.Ask.{open_ask};
ghost use Rattle.session.specs.Step.{stepped_as, to_stepped};

use refusal::Refusal;
use session::Taken;
use session::parts::{dropped, taken};
use state::{Before, Outcome, Session, Side, Sides};
use wire::Role;

// Opens a session; only a client may, and a number that was used before only if its far side is ended and its own side finished or ended.
#[tactic(auto, unfolding(protocol::specs::Plan::settle, protocol::specs::Ask::open_ask))]
pub fn step_open(role: Role, x: Session) -> Result<Taken, Refusal>
    ensures { stepped_as result ≡ to_stepped (open_ask role x) }
{
    if role == Role::Server {
        return Err(Refusal::WrongRole);
    }
    let before = match x.sides {
        Sides::Idle => Before::Idle,
        Sides::Live(Side::Finished, Side::Ended) => Before::Finished,
        Sides::Live(Side::Ended, Side::Ended) => Before::Ended,
        _ => return Err(Refusal::WrongState),
    };
    let opening = Session {
        sides: Sides::Opening(before),
        outcome: Outcome::Running,
        ..dropped(x)
    };
    taken(opening, None)
}
