// What one end writes for its own calls and replies, and how it is written at the front of a lent room.
#![tactic(auto)]

ghost use Rattle.std.specs.Prelude.{◌≡◌, [], map, take};
ghost use Rattle.laws.specs.Room.{at_front};
ghost use Rattle.protocol.specs.Message.{numbered};
ghost use Rattle.protocol.specs.Judge.{sent as judge_sent};
ghost use Rattle.protocol.specs.Result.{bytes_of_all};
ghost use Rattle.session.specs.Step.{message_as, sent_as};
ghost use Rattle.connection_output.specs.Outgoing.{outs_as};

use session::Sent;
use wire::Message;
use wire_connection_header::write_connection_header;
use wire_fields::body_length;
use wire_write::put_message;

// Our connection header, or a message.
#[derive(Clone, Copy, Debug, PartialEq, Eq)]
pub enum Outgoing {
    Header(u16),
    Message(Message),
}

// The message that a session sends, with its number: no detail, and an increment unshifted.
fn message_of(session: u8, sent: Sent) -> Message
    ensures { result ≡ numbered session (message_as sent) }
{
    match sent {
        Sent::Data { length, opens, eof } => Message::Data {
            open: opens,
            close: false,
            eof,
            ack_required: false,
            session,
            length,
        },
        Sent::Increment(amount) => Message::IncrementRation {
            shift: 0,
            session,
            increment: amount,
        },
        Sent::Abort(partial) => Message::Abort {
            partial,
            session,
            length: 0,
        },
        Sent::Close => Message::Close { session },
    }
}

// What a session sends, with its number.
pub fn of_session(session: u8, sent: Option<Sent>) -> Option<Outgoing>
    ensures { outs_as result ≡ map (λ m. judge_sent (numbered session m)) (sent_as sent) }
{
    sent.map(|sent| Outgoing::Message(message_of(session, sent)))
}

// The first n bytes, or all where there are fewer.
fn first_bytes(n: u16, payload: &[u8]) -> &[u8]
    ensures { result.now ≡ take n payload.now }
{
    payload.get(..n as usize).unwrap_or(payload)
}

// Writes the output, with the first bytes of a payload behind a Data header, and returns how many bytes it has; a room that is
// too small stays as lent.
pub fn write_with(out: Option<Outgoing>, payload: &[u8], room: &mut [u8]) -> usize
    ensures { (result, room.new) ≡ at_front (bytes_of_all payload.now (outs_as out)) room.old }
{
    let Some(output) = out else {
        return 0;
    };
    match output {
        Outgoing::Header(number) => write_connection_header(number, room).unwrap_or(0),
        Outgoing::Message(m) => {
            let body = first_bytes(body_length(m), payload);
            put_message(m, body, room)
        }
    }
}

// Writes the output with nothing behind a header.
pub fn write(out: Option<Outgoing>, room: &mut [u8]) -> usize
    ensures { (result, room.new) ≡ at_front (bytes_of_all [] (outs_as out)) room.old }
{
    write_with(out, b"", room)
}
