// The decision of a receive from the front of its input: a connection header first, then messages.
ghost use Rattle.std.specs.Prelude.{◌≡◌};
ghost use Rattle.protocol.specs.Connection.{other_end};
ghost use Rattle.protocol.specs.Call.{answering as call_answering, header_taken, message_taken, reading};
ghost use Rattle.wire_connection_header.specs.Answer.{header_read_as};
ghost use Rattle.wire_read.specs.Answer.{read_as};
ghost use Rattle.connection_judge.specs.Verdict.{replies_as, verdict_as, verdict};

use connection_judge::{Judged, Reply, incomplete, judge, violated};
use connection_output::Outgoing;
use refusal::ReadError;
use state::{Answer, Connection, Stage};
use wire::{Message, Role};
use wire_connection_header::read_connection_header;
use wire_read::read_message;

// The reply to a good header: a server writes its own.
fn answering(role: Role, own: u16) -> Reply
    ensures { replies_as result ≡ call_answering role own }
{
    match role {
        Role::Client => Reply::Only(None),
        Role::Server => Reply::Only(Some(Outgoing::Header(own))),
    }
}

// The decision on a header that was read; after a good one the headers are exchanged.
fn take_header(c: Connection, role: Role, header: Result<u16, ReadError>) -> Judged
    ensures { verdict_as result ≡ verdict c (header_taken c role (header_read_as header)) }
{
    match header {
        Ok(far) => Judged {
            connection: c.with_stage(Stage::Up(role, far)),
            answer: Ok(Answer::Header(far)),
            reply: answering(role, c.own),
        },
        Err(ReadError::Incomplete) => incomplete(c),
        Err(ReadError::Violated(why)) => violated(c, why),
    }
}

// The decision on a message that was read.
fn take_message(c: Connection, message: Result<Message, ReadError>) -> Judged
    ensures { verdict_as result ≡ verdict c (message_taken c (read_as message)) }
{
    match message {
        Ok(m) => judge(c, m),
        Err(ReadError::Incomplete) => incomplete(c),
        Err(ReadError::Violated(fault)) => violated(c, fault),
    }
}

fn other_end(role: Role) -> Role
    ensures { result ≡ other_end role }
{
    match role {
        Role::Client => Role::Server,
        Role::Server => Role::Client,
    }
}

// Reads what comes next at this stage of the connection, a header or a message, and decides.
pub(crate) fn decide(c: Connection, input: &[u8]) -> Judged
    ensures { verdict_as result ≡ verdict c (reading c input.now c.stage) }
{
    match c.stage {
        Stage::Fresh(role) => take_header(c, role, read_connection_header(input)),
        Stage::Started => take_header(c, Role::Client, read_connection_header(input)),
        Stage::Up(role, _) => take_message(c, read_message(other_end(role), input)),
    }
}
