// What a line asks.
ghost use Rattle.std.specs.Prelude.{◌≡◌, ◌/◌, min, length};
ghost use Rattle.script_words.specs.Hex.{bytes_from_hex, laid};
ghost use Rattle.script_lines.specs.Calls.{with_room, alone as calls_alone, put_command, grant_command, is_partial as calls_is_partial, abort_command, receive_command, command_of, bytes_word, role_named, queue_length, beginning_of};

use crate::names::name_of;
use crate::{Beginning, Call, Command, Name};
use call_slots::QUEUE_SIZE;
use script_words::{
    decimal_of, from_hex, has_more, head, id_of, is, is_bytes, short_of, size_of, tail,
};
use wire::Role;

// The room of a line that names none.
const USUAL_ROOM: usize = 600;

// A call with the room that the word after the first names, or the usual one if there is no further word.
fn with_room(call: Call, s: &[u8]) -> Option<Command>
    ensures { result ≡ with_room call s.now }
{
    let room = if has_more(s) {
        size_of(tail(s), 66000)?
    } else {
        USUAL_ROOM
    };
    Some(Command::Call(call, room))
}

// The command of a line that has only its first word.
fn alone(command: Command, s: &[u8]) -> Option<Command>
    ensures { result ≡ calls_alone command s.now }
{
    (!has_more(s)).then_some(command)
}

fn put(rest: &[u8]) -> Option<Command>
    ensures { result ≡ put_command rest.now }
{
    let n = id_of(head(rest))?;
    is_bytes(tail(rest), 1024).then_some(Command::Call(Call::Put(n), USUAL_ROOM))
}

fn grant(rest: &[u8]) -> Option<Command>
    ensures { result ≡ grant_command rest.now }
{
    let n = id_of(head(rest))?;
    let rest = tail(rest);
    with_room(Call::Grant(n, decimal_of(head(rest))?), rest)
}

// Whether a word asks for a partial abort or for one of the whole.
fn is_partial(word: &[u8]) -> Option<bool>
    ensures { result ≡ calls_is_partial word.now }
{
    if is(word, b"whole") {
        Some(false)
    } else if is(word, b"partial") {
        Some(true)
    } else {
        None
    }
}

fn abort(rest: &[u8]) -> Option<Command>
    ensures { result ≡ abort_command rest.now }
{
    let n = id_of(head(rest))?;
    let rest = tail(rest);
    with_room(Call::Abort(n, is_partial(head(rest))?), rest)
}

fn receive(rest: &[u8]) -> Option<Command>
    ensures { result ≡ receive_command rest.now }
{
    if is_bytes(head(rest), 66000) {
        with_room(Call::Receive, rest)
    } else {
        None
    }
}

// What a line after the first asks.
#[tactic(auto, unfolding(crate::specs::Calls::command_of))]
pub fn command_of(line: &[u8]) -> Option<Command>
    ensures { result ≡ command_of line.now }
{
    let rest = tail(line);
    match name_of(head(line))? {
        Name::Start => with_room(Call::Start, line),
        Name::Open => Some(Command::Call(Call::Open(id_of(rest)?), USUAL_ROOM)),
        Name::Put => put(rest),
        Name::Finish => Some(Command::Call(Call::Finish(id_of(rest)?), USUAL_ROOM)),
        Name::Turn => with_room(Call::Turn, line),
        Name::Grant => grant(rest),
        Name::Abort => abort(rest),
        Name::Close => with_room(Call::Close(id_of(head(rest))?), rest),
        Name::Ping => with_room(Call::Ping(short_of(head(rest))?), rest),
        Name::Shutdown => with_room(Call::Shutdown, line),
        Name::Lost => alone(Command::Call(Call::Lost, USUAL_ROOM), line),
        Name::Receive => receive(rest),
        Name::State => alone(Command::State, line),
        Name::Queue => Some(Command::Queue(id_of(rest)?)),
    }
}

// The word that holds the bytes of a put or a receive.
#[tactic(auto, unfolding(crate::specs::Calls::bytes_word))]
fn bytes_word(line: &[u8]) -> &[u8]
    ensures { result.now ≡ bytes_word line.now }
{
    let rest = tail(line);
    if is(head(line), b"put") {
        tail(rest)
    } else {
        head(rest)
    }
}

// Puts the bytes of a put or a receive at the start of dst, as many as fit, and returns their number.
pub fn payload(line: &[u8], dst: &mut [u8]) -> usize
    ensures { (result ≡ min (length (bytes_word line.now) / 2) (length dst.old)) × (dst.new ≡ laid dst.old (bytes_from_hex (bytes_word line.now)) result) }
{
    from_hex(bytes_word(line), dst)
}

// The role that the first word of the first line names.
fn role_named(word: &[u8]) -> Option<Role>
    ensures { result ≡ role_named word.now }
{
    if is(word, b"client") {
        Some(Role::Client)
    } else if is(word, b"server") {
        Some(Role::Server)
    } else {
        None
    }
}

// The length of the queue that follows the header number, or the usual one if nothing follows.
fn queue_length(s: &[u8]) -> Option<usize>
    ensures { result ≡ queue_length s.now }
{
    if !has_more(s) {
        return Some(QUEUE_SIZE);
    }
    let rest = tail(s);
    if is(head(rest), b"queue") {
        size_of(tail(rest), 70000)
    } else {
        None
    }
}

// What the first line says.
#[tactic(auto, unfolding(crate::specs::Calls::beginning_of))]
pub fn begin(line: &[u8]) -> Option<Beginning>
    ensures { result ≡ beginning_of line.now }
{
    let role = role_named(head(line))?;
    let rest = tail(line);
    let header = short_of(head(rest))?;
    let queue = queue_length(rest)?;
    Some(Beginning {
        role,
        header,
        queue,
    })
}
