// Put: bytes wait in the queue until turns send them.
#![tactic(auto)]

ghost use Rattle.std.specs.Prelude.{◌≡◌};
ghost use Rattle.protocol.specs.Plan.{take};
ghost use Rattle.protocol.specs.Judge.{setting_session, done as judge_done};
ghost use Rattle.protocol.specs.Call.{up_and_running, queue_of, number_in};
ghost use Rattle.protocol.specs.Result.{called_as, put_call};
ghost use Rattle.session.specs.Step.{stepped_as};
ghost use Rattle.call_checks.specs.Gate.{gate_as, to_gate};
ghost use Rattle.call_checks.specs.Deciding.{Quiet, decision};
ghost use Rattle.call_put.specs.Put.{putting};

use call_checks::{done, is_up, refuse_if, refused};
use call_slots::{QUEUE_SIZE, put_into};
use connection::{session_at, with_session};
use refusal::Refusal;
use session::Taken;
use state::{Called, Connection};

fn to_put(c: Connection, n: u8, queue: usize) -> Result<(), Refusal>
    ensures { gate_as result ≡ to_gate (up_and_running c (queue_of queue (number_in n (take tt)))) }
{
    let whole = refuse_if(queue != QUEUE_SIZE, Refusal::WrongRoom);
    let numbered = refuse_if(128 <= n, Refusal::NoSuchSession);
    is_up(c).and(whole).and(numbered)
}

// Puts the bytes into the slot if the session takes them.
fn conclude_put(
    c: Connection,
    n: u8,
    stepped: Result<Taken, Refusal>,
    waiting: u16,
    src: &[u8],
    queue: &mut [u8],
) -> Called
    requires { Quiet (stepped_as stepped) }
    ensures { (called_as result, queue.new) ≡ putting c n waiting src.now queue.old (decision (setting_session c n c.last judge_done) (stepped_as stepped)) }
{
    match stepped {
        Ok(taken) => {
            put_into(queue, n, waiting, src);
            done(with_session(c, n, taken.session), 0)
        }
        Err(refusal) => refused(c, refusal),
    }
}

// Puts bytes behind those that already wait for a session, if the session takes them.
pub fn put(c: Connection, n: u8, src: &[u8], queue: &mut [u8]) -> Called
    ensures { (called_as result, queue.new) ≡ put_call c n src.now queue.old }
{
    match to_put(c, n, queue.len()) {
        Ok(()) => {
            let x = session_at(c, n);
            let stepped = session_send::step_put(x, src.len());
            conclude_put(c, n, stepped, x.waiting, src, queue)
        }
        Err(refusal) => refused(c, refusal),
    }
}
