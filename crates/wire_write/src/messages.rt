// A message and the bytes that follow it, at the front of a room.
ghost use Rattle.std.specs.Prelude.{◌≡◌, ◌++◌};
ghost use Rattle.laws.specs.Room.{at_front};
ghost use Rattle.wire.specs.Message.{header, writable, write_message};
ghost use Rattle.wire_connection_header.specs.Answer.{written_as};

use crate::headers::header_of;
use refusal::Refusal;
use wire::{Message, Role};
use wire_fields::{body_length, flags_allowed, kind_of_message, may_send, second_byte, shift_of};

// Puts the header of a message and a body at the front of a room that holds both, and returns how many bytes they are; a
// room that is too small stays as lent.
// Kept: 0 for a room too small, since the definition `at_front` has it, by which theorems speak of every output of an end.
pub fn put_message(m: Message, body: &[u8], room: &mut [u8]) -> usize
    ensures { (result, room.new) ≡ at_front (header m ++ body.now) room.old }
{
    let header = header_of(m);
    if room.len() < 4 || room.len() - 4 < body.len() {
        return 0;
    }
    let size = 4 + body.len();
    room[..4].copy_from_slice(&header);
    room[4..size].copy_from_slice(body);
    size
}

// Whether the reader gives the message back, with `len` bytes after its header.
#[tactic(auto, unfolding(wire::specs::Message::writable))]
fn may_write(from: Role, m: Message, len: usize) -> bool
    ensures { result ≡ writable from m len }
{
    shift_of(m) < 8
        && second_byte(m) < 128
        && may_send(from, kind_of_message(m))
        && flags_allowed(from, m)
        && body_length(m) as usize == len
}

// Writes a message from a sender and the bytes that follow it.
pub fn write_message(from: Role, m: Message, body: &[u8], room: &mut [u8]) -> Result<usize, Refusal>
    ensures { (written_as result, room.new) ≡ write_message from m body.now room.old }
{
    if !may_write(from, m, body.len()) {
        return Err(Refusal::IllFormed);
    }
    match put_message(m, body, room) {
        0 => Err(Refusal::WrongRoom),
        wrote => Ok(wrote),
    }
}
