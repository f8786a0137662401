// The result of a receive: the reply is written, and the bytes used and the place of the payload follow from the answer.
ghost use Rattle.std.specs.Prelude.{◌≡◌, [], ◌≤◌, length};
ghost use Rattle.protocol.specs.Result.{called_as, bytes_of_all};
ghost use Rattle.laws.specs.Room.{at_front};
ghost use Rattle.connection_judge.specs.Verdict.{replies_as, verdict_as};
ghost use Rattle.call_receive.specs.Replied.{replied as replied_replied};

use connection_judge::{Judged, Reply, extent_of};
use connection_output::{Outgoing, write};
use state::Called;
use wire::Message;

// Writes our header and an Error behind it, 12 bytes.
fn write_header_error(own: u16, room: &mut [u8]) -> usize
    requires { 12 ≤ length room.old }
    ensures { (result, room.new) ≡ at_front (bytes_of_all [] (replies_as (Reply.HeaderError own))) room.old }
{
    write(Some(Outgoing::Header(own)), room);
    write(
        Some(Outgoing::Message(Message::Error { length: 0 })),
        &mut room[8..],
    );
    12
}

// Writes the reply and returns how many bytes it has.
fn write_reply(reply: Reply, room: &mut [u8]) -> usize
    requires { 12 ≤ length room.old }
    ensures { (result, room.new) ≡ at_front (bytes_of_all [] (replies_as reply)) room.old }
{
    match reply {
        Reply::Only(out) => write(out, room),
        Reply::HeaderError(own) => write_header_error(own, room),
    }
}

// Writes the reply, and returns the result of the call.
pub(crate) fn replied(judged: Judged, room: &mut [u8]) -> Called
    requires { 12 ≤ length room.old }
    ensures { (called_as result, room.new) ≡ replied_replied (verdict_as judged) room.old }
{
    let connection = judged.connection;
    let answer = judged.answer;
    let wrote = write_reply(judged.reply, room);
    let extent = extent_of(answer);
    Called {
        connection,
        answer,
        used: extent.used,
        wrote,
        start: extent.start,
        end: extent.end,
    }
}
