// What is due for one session number after a call of the engine.
ghost use Rattle.std.specs.Prelude.{◌≡◌};
ghost use Rattle.protocol.specs.Result.{answer_as};
ghost use Rattle.protocol.specs.Fate.{fate_of};
ghost use Rattle.laws.specs.Pick.{pick};
ghost use Rattle.journal_history.specs.Due.{nothing_due, entry_due, has_open, tells_served, due_running, due_fate, due_for};
ghost use Rattle.journal_keep.specs.Answers.{due_as};

use refusal::Failure;
use state::{Answer, Outcome, Session, Sides};

// What may be due: that the number names a new session, whose start is not stored, or an entry of a kind.
#[derive(Clone, Copy, Debug, PartialEq, Eq)]
pub enum Due {
    NewSession,
    Entry(u8),
}

// Whether the open flag of the message that these bytes begin with is set.
pub(crate) fn has_open(written: &[u8]) -> bool
    ensures { result ≡ has_open written.now }
{
    match written {
        [] => false,
        [first, ..] => first / 16 % 2 == 1,
    }
}

// Whether an answer says that a turn served the number.
pub(crate) fn is_served(number: u8, answer: Result<Answer, Failure>) -> bool
    ensures { result ≡ tells_served number (answer_as answer) }
{
    match answer {
        Ok(Answer::Served(served)) => served == number,
        Ok(Answer::Done | Answer::Header(_) | Answer::Message { .. }) | Err(_) => false,
    }
}

fn due_running(sides: Sides) -> Option<Due>
    ensures { due_as result ≡ due_running sides }
{
    match sides {
        Sides::Opening(_) => Some(Due::NewSession),
        Sides::Idle | Sides::Live(_, _) => None,
    }
}

// The kind of a fate that is known, where the start is stored.
fn due_if(stored: bool, kind: u8) -> Option<Due>
    ensures { due_as result ≡ pick stored (entry_due kind) nothing_due }
{
    if stored { Some(Due::Entry(kind)) } else { None }
}

// What is due for a session that is not opened by this call.
fn due_fate(stored: bool, x: Session) -> Option<Due>
    ensures { due_as result ≡ due_fate stored (fate_of x.outcome) x.sides }
{
    match x.outcome {
        Outcome::None => Some(Due::NewSession),
        Outcome::Running => due_running(x.sides),
        Outcome::Complete => due_if(stored, 1),
        Outcome::MayRetry => due_if(stored, 2),
        Outcome::MustNotRetry => due_if(stored, 3),
    }
}

// What is due for a session, which this call opened or not, and whose start is stored or not.
pub(crate) fn due_for(opening: bool, stored: bool, x: Session) -> Option<Due>
    ensures { due_as result ≡ due_for opening stored x }
{
    if opening {
        return Some(Due::Entry(0));
    }
    due_fate(stored, x)
}
