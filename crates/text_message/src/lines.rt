// The words of a message, of a fault in one, and of a failure, put behind the end of a line of text.
ghost use Rattle.wire.specs.declared.Message.TheVariants.{IncrementRation, Abort, Data};
ghost use Rattle.text_line.specs.Line.{line_text, added, LineIs};
ghost use Rattle.text_message.specs.Message.{message_text, fault_text, failure_text};

use refusal::{Failure, Fault};
use text_line::Line;
use wire::Message;

fn increment(line: Line, shift: u8, session: u8, increment: u16) -> Line
    ensures { LineIs result (added (line_text line) (message_text (IncrementRation shift session increment))) }
{
    line.item(b"increment id ", session as u64)
        .item(b" shift ", shift as u64)
        .item(b" increment ", increment as u64)
}

fn abort(line: Line, partial: bool, session: u8, length: u16) -> Line
    ensures { LineIs result (added (line_text line) (message_text (Abort partial session length))) }
{
    line.item(b"abort id ", session as u64)
        .flag(b" partial", partial)
        .item(b" length ", length as u64)
}

fn data(
    line: Line,
    opens: bool,
    close: bool,
    eof: bool,
    ack: bool,
    session: u8,
    length: u16,
) -> Line
    ensures { LineIs result (added (line_text line) (message_text (Data opens close eof ack session length))) }
{
    line.item(b"data id ", session as u64)
        .flag(b" open", opens)
        .flag(b" close", close)
        .flag(b" eof", eof)
        .flag(b" ack", ack)
        .item(b" length ", length as u64)
}

/// The line with the words of a message behind its end.
pub fn with_message(line: Line, m: Message) -> Line
    ensures { LineIs result (added (line_text line) (message_text m)) }
{
    match m {
        Message::NoOperation { length } => line.item(b"noop length ", length as u64),
        Message::Shutdown { length } => line.item(b"shutdown length ", length as u64),
        Message::Ping { cookie } => line.item(b"ping cookie ", cookie as u64),
        Message::PingAck { cookie } => line.item(b"pingack cookie ", cookie as u64),
        Message::Error { length } => line.item(b"error length ", length as u64),
        Message::IncrementRation {
            shift,
            session,
            increment: by,
        } => increment(line, shift, session, by),
        Message::Abort {
            partial,
            session,
            length,
        } => abort(line, partial, session, length),
        Message::Close { session } => line.item(b"close id ", session as u64),
        Message::Acknowledgment { session } => line.item(b"ack id ", session as u64),
        Message::Data {
            open,
            close,
            eof,
            ack_required,
            session,
            length,
        } => data(line, open, close, eof, ack_required, session, length),
    }
}

/// The line with the number and the place of a violation behind its end.
pub fn with_fault(line: Line, fault: Fault) -> Line
    ensures { LineIs result (added (line_text line) (fault_text fault)) }
{
    line.item(b" refused ", fault.violation.number() as u64)
        .item(b" at ", fault.place() as u64)
}

/// The line with the number of a refusal, or the number and the place of a violation, behind its end.
pub fn with_failure(line: Line, failure: Failure) -> Line
    ensures { LineIs result (added (line_text line) (failure_text failure)) }
{
    match failure {
        Failure::Refused(refusal) => line.item(b" refused ", refusal.number() as u64),
        Failure::Violated(fault) => with_fault(line, fault),
    }
}
