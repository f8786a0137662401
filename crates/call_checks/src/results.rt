// The result of a call that reads no input: its answer, or why there is none, and how many bytes it wrote.
ghost use Rattle.std.specs.Prelude.{◌≡◌, []};
ghost use Rattle.laws.specs.Result.{ok};
ghost use Rattle.refusal.specs.Number.{refusal_number};
ghost use Rattle.protocol.specs.Judge.{refuse, done as judge_done};
ghost use Rattle.protocol.specs.Result.{given, called_as, answer_as};

use refusal::{Failure, Refusal};
use state::{Answer, Called, Connection};

// A call with this answer, which uses no input.
pub fn answered(c: Connection, answer: Result<Answer, Failure>, wrote: usize) -> Called
    ensures { called_as result ≡ record { connection = c; answer = answer_as answer; used = 0; wrote = wrote; start = 0; end = 0 } }
{
    Called {
        connection: c,
        answer,
        used: 0,
        wrote,
        start: 0,
        end: 0,
    }
}

// A refusal leaves the connection as it is.
pub fn refused(c: Connection, refusal: Refusal) -> Called
    ensures { called_as result ≡ given c [] (refuse (refusal_number refusal)) }
{
    answered(c, Err(Failure::Refused(refusal)), 0)
}

// A call that is taken and reports nothing more.
pub fn done(c: Connection, wrote: usize) -> Called
    ensures { called_as result ≡ record { connection = c; answer = ok judge_done; used = 0; wrote = wrote; start = 0; end = 0 } }
{
    answered(c, Ok(Answer::Done), wrote)
}
