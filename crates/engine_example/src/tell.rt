// What is told on standard error.
use engine::{Called, Session};
use std::io;
use text_line::Line;

fn put(rt: &HostRuntime, line: Line) -> io::Result<()> {
    rt.stderr().write_all(line.text(b"\n").as_bytes())
}

// The payload of a message, which is a part of the input.
fn payload(rt: &HostRuntime, called: &Called, input: &[u8]) -> io::Result<()> {
    let payload = input.get(called.start..called.end).unwrap_or(b"");
    if !payload.is_empty() {
        rt.stderr().write_all(payload)?;
        rt.eprintln("")?;
    }
    Ok(())
}

// The answer of a receive, in the words of a script's output, and the payload.
pub(crate) fn received(rt: &HostRuntime, called: &Called, input: &[u8]) -> io::Result<()> {
    let line = Line::new().text(b"receive");
    put(rt, text_state::answered(line, called.answer, called.used))?;
    payload(rt, called, input)
}

// What became of a session.
pub(crate) fn session(rt: &HostRuntime, number: u8, session: Session) -> io::Result<()> {
    put(rt, text_state::session_line(number, session))
}

pub(crate) fn usage(rt: &HostRuntime) -> io::Result<()> {
    rt.eprintln("usage: engine_example client|server, with the line on standard input and output")
}
