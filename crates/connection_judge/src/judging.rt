// What a received message does to the connection, and which reply it gets. No bytes are read or written here.
ghost use Rattle.std.specs.Prelude.{◌≡◌, Bool, false, []};
ghost use Rattle.connection.specs.Cause.{cause_as};
ghost use Rattle.wire.specs.declared.Message.TheVariants.{PingAck};
ghost use Rattle.laws.specs.Result.{ok};
ghost use Rattle.wire.specs.Message.{effective_increment};
ghost use Rattle.protocol.specs.Message.{ping_ack_of, data_of, increment_of, abort_of, close_of, acknowledgment_of, whole, of_session};
ghost use Rattle.protocol.specs.Connection.{ended as connection_ended};
ghost use Rattle.protocol.specs.Judge.{message, matches as judge_matches, judge_scope, judge as judge_judge};
ghost use Rattle.session_receive.specs.Receipt.{receipt_as};
ghost use Rattle.connection_judge.specs.Verdict.{verdict_as, verdict};
ghost use Rattle.connection_judge.specs.Stepped.{judged_by};

use crate::Judged;
use crate::verdicts::{fault_of, taken, violated};
use connection::{Cause, ended, far_start, own_start, role_of, session_at, with_session};
use connection_output::{Outgoing, of_session};
use refusal::Violation;
use session::Taken;
use session_receive::{
    Data, receive_abort, receive_acknowledgment, receive_close, receive_data, receive_increment,
};
use state::Connection;
use wire::Message;
use wire_fields::effective_increment;

// Whether a cookie is that of the outstanding ping.
fn matches(ping: Option<u16>, cookie: u16) -> bool
    ensures { result ≡ judge_matches ping cookie }
{
    ping == Some(cookie)
}

// A PingAck answers the outstanding ping, and then none is outstanding.
fn judge_ping_ack(c: Connection, cookie: u16) -> Judged
    ensures { verdict_as result ≡ verdict c (judge_scope c (PingAck cookie) (whole (ping_ack_of cookie))) }
{
    if matches(c.ping, cookie) {
        let next = c.with_ping(None);
        return taken(next, Message::PingAck { cookie }, false, None);
    }
    violated(c, fault_of(Violation::UnaskedPingAck))
}

// The decision on a message, from the step of its session.
fn judge_receipt(c: Connection, m: Message, n: u8, receipt: Result<Taken, Violation>) -> Judged
    ensures { verdict_as result ≡ verdict c (judged_by c m n (receipt_as receipt)) }
{
    match receipt {
        Ok(t) => {
            let reply = of_session(n, t.sent);
            taken(with_session(c, n, t.session), m, t.late, reply)
        }
        Err(violation) => violated(c, fault_of(violation)),
    }
}

// A message from the far end ends the connection.
fn judge_end(c: Connection, m: Message, cause: Cause) -> Judged
    ensures { verdict_as result ≡ record { connection = connection_ended (cause_as cause) c; answer = ok (message m false); outs = [] } }
{
    taken(ended(c, cause), m, false, None)
}

// An IncrementRation for one session, by its effective amount.
fn judge_increment(c: Connection, m: Message, session: u8, shift: u8, increment: u16) -> Judged
    ensures { verdict_as result ≡ verdict c (judge_scope c m (of_session session (increment_of (effective_increment shift increment)))) }
{
    let amount = effective_increment(shift, increment);
    let receipt = receive_increment(session_at(c, session), amount);
    judge_receipt(c, m, session, receipt)
}

// An Abort for one session.
fn judge_abort(c: Connection, m: Message, session: u8, partial: bool) -> Judged
    ensures { verdict_as result ≡ verdict c (judge_scope c m (of_session session (abort_of partial))) }
{
    let receipt = receive_abort(role_of(c.stage), session_at(c, session), partial);
    judge_receipt(c, m, session, receipt)
}

// A Close for one session.
fn judge_close(c: Connection, m: Message, session: u8) -> Judged
    ensures { verdict_as result ≡ verdict c (judge_scope c m (of_session session close_of)) }
{
    let receipt = receive_close(role_of(c.stage), session_at(c, session));
    judge_receipt(c, m, session, receipt)
}

// An Acknowledgment for one session.
fn judge_acknowledgment(c: Connection, m: Message, session: u8) -> Judged
    ensures { verdict_as result ≡ verdict c (judge_scope c m (of_session session acknowledgment_of)) }
{
    let receipt = receive_acknowledgment(session_at(c, session));
    judge_receipt(c, m, session, receipt)
}

// Data for one session.
fn judge_data(c: Connection, m: Message, session: u8, received: Data) -> Judged
    ensures { (ack : Bool) → verdict_as result ≡ verdict c (judge_scope c m (of_session session (data_of received.length received.opens received.close received.eof ack))) }
{
    let x = session_at(c, session);
    let receipt = receive_data(role_of(c.stage), own_start(c), far_start(c), x, received);
    judge_receipt(c, m, session, receipt)
}

// Judges a received message: NoOperation changes nothing, Shutdown and Error end the connection, Ping gets its PingAck, and a
// session's message goes to its session; an increment counts by its effective amount.
pub fn judge(c: Connection, m: Message) -> Judged
    ensures { verdict_as result ≡ verdict c (judge_judge c m) }
{
    match m {
        Message::NoOperation { .. } => taken(c, m, false, None),
        Message::Shutdown { .. } => judge_end(c, m, Cause::ShutdownReceived),
        Message::Ping { cookie } => {
            let ack = Outgoing::Message(Message::PingAck { cookie });
            taken(c, m, false, Some(ack))
        }
        Message::PingAck { cookie } => judge_ping_ack(c, cookie),
        Message::Error { .. } => judge_end(c, m, Cause::ErrorReceived),
        Message::IncrementRation {
            shift,
            session,
            increment,
        } => { judge_increment(c, m, session, shift, increment) }
        Message::Abort {
            partial,
            session,
            ..
        } => judge_abort(c, m, session, partial),
        Message::Close { session } => judge_close(c, m, session),
        Message::Acknowledgment { session } => judge_acknowledgment(c, m, session),
        Message::Data {
            open,
            close,
            eof,
            session,
            length,
            ..
        } => {
            let received = Data {
                length,
                opens: open,
                close,
                eof,
            };
            judge_data(c, m, session, received)
        }
    }
}
