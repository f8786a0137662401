// The result of a received message for its session that is taken, with or without a reply.

ghost use Rattle.std.specs.Prelude.{◌≡◌, []};
ghost use Rattle.laws.specs.Result.{ok};
ghost use Rattle.protocol.specs.Receipt.{replying};
ghost use Rattle.session_receive.specs.Receipt.{receipt_as, to_receipt};

use refusal::Violation;
use session::parts::dropped;
use session::{Sent, Taken};
use state::{Session, Side, Sides};
use wire::Role;

// The message is taken without a reply.
pub(crate) fn taken(session: Session, late: bool) -> Result<Taken, Violation>
    ensures { receipt_as result ≡ ok (record { session = session; sent = []; late = late }) }
{
    Ok(Taken {
        session,
        sent: None,
        late,
    })
}

// A reply Abort ends our side and drops what waited; a server's sets partial.
#[tactic(auto, unfolding(protocol::specs::Plan::settle))]
pub(crate) fn reply(role: Role, x: Session, theirs: Side) -> Result<Taken, Violation>
    ensures { receipt_as result ≡ to_receipt (replying role theirs x) }
{
    Ok(Taken {
        session: dropped(x.with_sides(Sides::Live(Side::Ended, theirs))),
        sent: Some(Sent::Abort(role == Role::Server)),
        late: false,
    })
}
