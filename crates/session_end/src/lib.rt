// Close and abort: our side ends.
#![tactic(auto)]

ghost use Rattle.std.specs.Prelude.{◌≡◌};
ghost use Rattle.protocol.specs.Ask.{abort_ask, close_ask, restored};
ghost use Rattle.protocol.specs.Session.{dropped as session_dropped, settled as session_settled};
ghost use Rattle.session.specs.Step.{stepped_as, to_stepped};
ghost use Rattle.state.specs.With.{with_sides};

use refusal::Refusal;
use session::parts::{dropped, settled, taken};
use session::{Sent, Taken};
use state::{Before, Outcome, Session, Side, Sides};
use wire::Role;

// Closes a session whose own side is finished; only a server may.
#[tactic(auto, unfolding(protocol::specs::Plan::settle, protocol::specs::Ask::close_ask))]
pub fn step_close(role: Role, x: Session) -> Result<Taken, Refusal>
    ensures { stepped_as result ≡ to_stepped (close_ask role x) }
{
    if role == Role::Client {
        return Err(Refusal::WrongRole);
    }
    let Sides::Live(Side::Finished, theirs) = x.sides else {
        return Err(Refusal::WrongState);
    };
    taken(
        x.with_sides(Sides::Live(Side::Ended, theirs)),
        Some(Sent::Close),
    )
}

// The sides before an open.
fn restored(before: Before) -> Sides
    ensures { result ≡ restored before }
{
    match before {
        Before::Idle => Sides::Idle,
        Before::Finished => Sides::Live(Side::Finished, Side::Ended),
        Before::Ended => Sides::Live(Side::Ended, Side::Ended),
    }
}

// The session aborted to these sides: nothing waits, and a running outcome is settled.
fn aborted(x: Session, sides: Sides, outcome: Outcome) -> Session
    ensures { result ≡ session_dropped (with_sides sides (session_settled outcome x)) }
{
    dropped(settled(x, outcome).with_sides(sides))
}

// Aborts a session. Of an opening nothing was sent, so nothing is written.
#[tactic(auto, unfolding(protocol::specs::Plan::settle, protocol::specs::Ask::abort_ask))]
pub fn step_abort(role: Role, x: Session, partial: bool) -> Result<Taken, Refusal>
    ensures { stepped_as result ≡ to_stepped (abort_ask role x partial) }
{
    if partial && role == Role::Client {
        return Err(Refusal::WrongRole);
    }
    match x.sides {
        Sides::Opening(before) => taken(aborted(x, restored(before), Outcome::MayRetry), None),
        Sides::Live(Side::Open, theirs)
        | Sides::Live(Side::Finished, theirs @ (Side::Open | Side::Finished)) => {
            let ended = Sides::Live(Side::Ended, theirs);
            taken(
                aborted(x, ended, Outcome::MustNotRetry),
                Some(Sent::Abort(partial)),
            )
        }
        _ => Err(Refusal::WrongState),
    }
}
