// A call that writes nothing, on one session: its checks, then the result of the session's step.
ghost use Rattle.std.specs.Prelude.{◌≡◌, []};
ghost use Rattle.protocol.specs.Judge.{setting_session, done as judge_done};
ghost use Rattle.protocol.specs.Result.{given, called_as};
ghost use Rattle.session.specs.Step.{stepped_as};
ghost use Rattle.protocol.specs.Plan.{take};
ghost use Rattle.protocol.specs.Call.{up_and_running, number_in};
ghost use Rattle.call_checks.specs.Deciding.{Quiet, after_checks};

use call_checks::{done, refused, to_session};
use connection::with_session;
use refusal::Refusal;
use session::Taken;
use state::{Called, Connection};

// The result of a call that takes a step of session n and writes nothing.
pub(crate) fn take_step(c: Connection, n: u8, stepped: Result<Taken, Refusal>) -> Called
    requires { Quiet (stepped_as stepped) }
    ensures { called_as result ≡ given c [] (after_checks (up_and_running c (number_in n (take tt))) (setting_session c n c.last judge_done) (stepped_as stepped)) }
{
    match to_session(c, n).and(stepped) {
        Ok(taken) => done(with_session(c, n, taken.session), 0),
        Err(refusal) => refused(c, refusal),
    }
}
