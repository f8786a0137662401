// The calls of one end: made to the engine, and in words.
use engine::{Called, Connection};
use script_lines::Call;
use text_line::Line;

// Makes a call to the engine.
pub(crate) fn ask(
    c: Connection,
    call: Call,
    bytes: &[u8],
    queue: &mut [u8],
    room: &mut [u8],
) -> Called {
    match call {
        Call::Start => engine::start(c, room),
        Call::Open(n) => engine::open_session(c, n),
        Call::Put(n) => engine::put(c, n, bytes, queue),
        Call::Finish(n) => engine::finish(c, n),
        Call::Turn => engine::turn(c, queue, room),
        Call::Grant(n, amount) => engine::grant(c, n, amount, room),
        Call::Abort(n, partial) => engine::abort(c, n, partial, room),
        Call::Close(n) => engine::close(c, n, room),
        Call::Ping(cookie) => engine::ping(c, cookie, room),
        Call::Shutdown => engine::shutdown(c, room),
        Call::Lost => engine::lost_line(c),
        Call::Receive => engine::receive(c, bytes, room),
    }
}

// The word of a call.
pub(crate) fn word_of(call: Call) -> &'static str {
    match call {
        Call::Start => "start",
        Call::Open(_) => "open",
        Call::Put(_) => "put",
        Call::Finish(_) => "finish",
        Call::Turn => "turn",
        Call::Grant(_, _) => "grant",
        Call::Abort(_, _) => "abort",
        Call::Close(_) => "close",
        Call::Ping(_) => "ping",
        Call::Shutdown => "shutdown",
        Call::Lost => "lost",
        Call::Receive => "receive",
    }
}

// The line with the word of a call and its numbers behind its end.
pub(crate) fn with_call(line: Line, call: Call) -> Line {
    let line = line.text(word_of(call).as_bytes());
    match call {
        Call::Open(n) | Call::Put(n) | Call::Finish(n) | Call::Close(n) => {
            line.item(b" ", n as u64)
        }
        Call::Grant(n, amount) => line.item(b" ", n as u64).item(b" ", amount as u64),
        Call::Abort(n, partial) => line.item(b" ", n as u64).flag(b" partial", partial),
        Call::Ping(cookie) => line.item(b" ", cookie as u64),
        Call::Start | Call::Turn | Call::Shutdown | Call::Lost | Call::Receive => line,
    }
}
