// The calls that start a connection and ask whether the far end is there: start and ping.
ghost use Rattle.std.specs.Prelude.{◌≡◌};
ghost use Rattle.protocol.specs.Call.{is_fresh};
ghost use Rattle.protocol.specs.Result.{called_as, start_call, ping_call};

use call_checks::{done, refuse_if, refused, to_start, to_write};
use connection::role_of;
use connection_output::{Outgoing, write};
use refusal::Refusal;
use state::{Called, Connection, Stage};
use wire::Message;
use wire_fields::is_server;

// Whether no header was sent or received.
fn is_fresh(stage: Stage) -> bool
    ensures { result ≡ is_fresh stage }
{
    matches!(stage, Stage::Fresh(_))
}

// Writes the connection header of a client.
pub fn start(c: Connection, room: &mut [u8]) -> Called
    ensures { (called_as result, room.new) ≡ start_call c room.old }
{
    let for_client = refuse_if(is_server(role_of(c.stage)), Refusal::WrongRole);
    let once = refuse_if(!is_fresh(c.stage), Refusal::WrongState);
    match to_start(c, room.len()).and(for_client).and(once) {
        Ok(()) => {
            let wrote = write(Some(Outgoing::Header(c.own)), room);
            done(c.with_stage(Stage::Started), wrote)
        }
        Err(refusal) => refused(c, refusal),
    }
}

// Writes a Ping if none is outstanding.
pub fn ping(c: Connection, cookie: u16, room: &mut [u8]) -> Called
    ensures { (called_as result, room.new) ≡ ping_call c cookie room.old }
{
    let alone = refuse_if(c.ping.is_some(), Refusal::PingOutstanding);
    match to_write(c, room.len()).and(alone) {
        Ok(()) => {
            let wrote = write(Some(Outgoing::Message(Message::Ping { cookie })), room);
            done(c.with_ping(Some(cookie)), wrote)
        }
        Err(refusal) => refused(c, refusal),
    }
}
