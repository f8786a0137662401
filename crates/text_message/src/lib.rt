// The words of a message, of a fault in one, and of a failure to answer or to read.
#![tactic(auto)]

ghost use Rattle.std.specs.Prelude.{Some};
ghost use Rattle.text_message.specs.Message.{message_text, fault_text, failure_text};

use refusal::{Failure, Fault};
use std::fmt;
use text_line::Flag;
use wire::Message;

mod lines;

pub use lines::{with_failure, with_fault, with_message};

/// A message in words: its type, and each item with its name.
#[derive(Clone, Copy)]
pub struct MessageText(pub Message);

impl fmt::Display for MessageText {
    ghost output = { λ m. Some (message_text m.0) };

    fn fmt<W: fmt::Write>(&self, f: &mut fmt::Formatter<W>) -> fmt::Result {
        match self.0 {
            Message::NoOperation { length } => write!(f, "noop length {length}"),
            Message::Shutdown { length } => write!(f, "shutdown length {length}"),
            Message::Ping { cookie } => write!(f, "ping cookie {cookie}"),
            Message::PingAck { cookie } => write!(f, "pingack cookie {cookie}"),
            Message::Error { length } => write!(f, "error length {length}"),
            Message::IncrementRation {
                shift,
                session,
                increment,
            } => write!(
                f,
                "increment id {session} shift {shift} increment {increment}"
            ),
            Message::Abort {
                partial,
                session,
                length,
            } => {
                let partial = Flag {
                    name: " partial",
                    set: partial,
                };
                write!(f, "abort id {session}{partial} length {length}")
            }
            Message::Close { session } => write!(f, "close id {session}"),
            Message::Acknowledgment { session } => write!(f, "ack id {session}"),
            Message::Data {
                open,
                close,
                eof,
                ack_required,
                session,
                length,
            } => {
                let opens = Flag {
                    name: " open",
                    set: open,
                };
                let closes = Flag {
                    name: " close",
                    set: close,
                };
                let ends = Flag {
                    name: " eof",
                    set: eof,
                };
                let acks = Flag {
                    name: " ack",
                    set: ack_required,
                };
                write!(
                    f,
                    "data id {session}{opens}{closes}{ends}{acks} length {length}"
                )
            }
        }
    }
}

/// A fault in words: the number and the place of the violation.
#[derive(Clone, Copy)]
pub struct FaultText(pub Fault);

impl fmt::Display for FaultText {
    ghost output = { λ fault. Some (fault_text fault.0) };

    fn fmt<W: fmt::Write>(&self, f: &mut fmt::Formatter<W>) -> fmt::Result {
        let number = self.0.violation.number();
        let place = self.0.place();
        write!(f, " refused {number} at {place}")
    }
}

/// A failure in words: the number of the refusal, or the number and the place of the violation.
#[derive(Clone, Copy)]
pub struct FailureText(pub Failure);

impl fmt::Display for FailureText {
    ghost output = { λ failure. Some (failure_text failure.0) };

    fn fmt<W: fmt::Write>(&self, f: &mut fmt::Formatter<W>) -> fmt::Result {
        match self.0 {
            Failure::Refused(refusal) => {
                let number = refusal.number();
                write!(f, " refused {number}")
            }
            Failure::Violated(fault) => {
                let fault = FaultText(fault);
                write!(f, "{fault}")
            }
        }
    }
}
