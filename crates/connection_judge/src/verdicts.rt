// The decision of a receive before its reply is written: incomplete input, a violation that the reader or a rule finds, a message taken.
ghost use Rattle.std.specs.Prelude.{◌≡◌};
ghost use Rattle.laws.specs.Result.{ok};
ghost use Rattle.refusal.specs.Number.{violation_number, fault_as};
ghost use Rattle.protocol.specs.Judge.{message, refuse, error_after, breach, fault_of};
ghost use Rattle.connection_output.specs.Outgoing.{outs_as};
ghost use Rattle.connection_judge.specs.Verdict.{replies_as, verdict_as, verdict};

use crate::{Judged, Reply};
use connection::{Cause, ended};
use connection_output::Outgoing;
use refusal::{Fault, Refusal, Violation};
use state::{Answer, Connection, Stage};
use wire::Message;

// The header or message is not complete: the connection stays as it is.
pub fn incomplete(c: Connection) -> Judged
    ensures { verdict_as result ≡ verdict c (refuse 10) }
{
    Judged {
        connection: c,
        answer: Err(Refusal::Incomplete.into()),
        reply: Reply::Only(None),
    }
}

// The reply to a violation: a server that has not sent its header sends it before the Error.
fn error_after(stage: Stage, own: u16) -> Reply
    ensures { replies_as result ≡ error_after stage own }
{
    match stage {
        Stage::Fresh(_) => Reply::HeaderError(own),
        Stage::Started | Stage::Up(_, _) => {
            Reply::Only(Some(Outgoing::Message(Message::Error { length: 0 })))
        }
    }
}

// A violation ends the connection as a lost line does.
pub fn violated(c: Connection, fault: Fault) -> Judged
    ensures { verdict_as result ≡ verdict c (breach c (fault_as fault)) }
{
    Judged {
        connection: ended(c, Cause::LineLost),
        answer: Err(fault.into()),
        reply: error_after(c.stage, c.own),
    }
}

// A rule that a message breaks, with its place: the session number for 25; the length, the increment or the cookie for the others.
pub(crate) fn fault_of(violation: Violation) -> Fault
    ensures { fault_as result ≡ fault_of (violation_number violation) }
{
    let offset = match violation {
        Violation::WrongState => 1,
        _ => 2,
    };
    Fault { violation, offset }
}

// A message is taken; `c` is the connection after it.
pub(crate) fn taken(c: Connection, m: Message, late: bool, reply: Option<Outgoing>) -> Judged
    ensures { verdict_as result ≡ record { connection = c; answer = ok (message m late); outs = outs_as reply } }
{
    Judged {
        connection: c,
        answer: Ok(Answer::Message { message: m, late }),
        reply: Reply::Only(reply),
    }
}
