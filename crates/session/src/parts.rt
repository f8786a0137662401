// The changes of a session that several steps share, and the answer of a step that is taken.
ghost use Rattle.std.specs.Prelude.{◌≡◌, false, ◌-◌, leb};
ghost use Rattle.laws.specs.Result.{ok};
ghost use Rattle.protocol.specs.Slot.{slot_size};
ghost use Rattle.session.specs.Step.{sent_as, stepped_as};
ghost use Rattle.protocol.specs.Session.{becomes as session_becomes, dropped as session_dropped, settled as session_settled, after_data};
ghost use Rattle.protocol.specs.Ask.{sends as ask_sends};

use crate::{SLOT_SIZE, Sent, Taken};
use refusal::Refusal;
use state::{Outcome, Session, Side, Sides};

// The state of the side that sends Data, after it.
pub fn after_data(close: bool, eof: bool) -> Side
    ensures { result ≡ after_data close eof }
{
    if close {
        return Side::Ended;
    }
    if eof {
        return Side::Finished;
    }
    Side::Open
}

// Whether our side is opening or open.
pub fn sends(sides: Sides) -> bool
    ensures { result ≡ ask_sends sides }
{
    matches!(sides, Sides::Opening(_) | Sides::Live(Side::Open, _))
}

// The outcome that follows: only a running one changes.
fn becomes(was: Outcome, new: Outcome) -> Outcome
    ensures { result ≡ session_becomes was new }
{
    match was {
        Outcome::Running => new,
        _ => was,
    }
}

// The session with nothing waiting and no finish asked for.
pub fn dropped(x: Session) -> Session
    ensures { result ≡ session_dropped x }
{
    x.with_waiting(0, false)
}

// The session with a new outcome, if its outcome is running.
pub fn settled(x: Session, new: Outcome) -> Session
    ensures { result ≡ session_settled new x }
{
    x.with_outcome(becomes(x.outcome, new))
}

// The call is taken.
pub fn taken(x: Session, sent: Option<Sent>) -> Result<Taken, Refusal>
    ensures { stepped_as result ≡ ok (record { session = x; sent = sent_as sent; late = false }) }
{
    Ok(Taken {
        session: x,
        sent,
        late: false,
    })
}

// Whether n more bytes fit the slot of a session, beside those that wait; the constant is the size that the rules use.
pub fn fits_slot(waiting: u16, n: usize) -> bool
    ensures value { result ≡ leb n (slot_size - waiting) }
    ensures slot_size_value { SLOT_SIZE ≡ slot_size }
{
    n <= SLOT_SIZE.saturating_sub(waiting) as usize
}
