// The calls that end a connection: shutdown and lost line.
ghost use Rattle.std.specs.Prelude.{◌≡◌};
ghost use Rattle.protocol.specs.Result.{called_as, shutdown_call, lost_call};

use call_checks::{done, is_running, refuse_if, refused, to_write};
use connection::{Cause, ended, role_of};
use connection_output::{Outgoing, write};
use refusal::Refusal;
use state::{Called, Connection};
use wire::Message;
use wire_fields::is_client;

// Ends the connection from a server's end.
pub fn shutdown(c: Connection, room: &mut [u8]) -> Called
    ensures { (called_as result, room.new) ≡ shutdown_call c room.old }
{
    let for_server = refuse_if(is_client(role_of(c.stage)), Refusal::WrongRole);
    match to_write(c, room.len()).and(for_server) {
        Ok(()) => {
            let wrote = write(
                Some(Outgoing::Message(Message::Shutdown { length: 0 })),
                room,
            );
            done(ended(c, Cause::OwnShutdown), wrote)
        }
        Err(refusal) => refused(c, refusal),
    }
}

// The line below the connection is lost.
pub fn lost_line(c: Connection) -> Called
    ensures { called_as result ≡ lost_call c }
{
    match is_running(c) {
        Ok(()) => done(ended(c, Cause::LineLost), 0),
        Err(refusal) => refused(c, refusal),
    }
}
