// What is written to standard output.
use crate::client::Ask;
use engine::Called;
use journal_keep::Stopped;
use journal_text::{ListText, ReadText};
use std::io;
use text_line::{Line, first};

// The name of a call, and the session that it is called with.
fn named(ask: Ask) -> Line {
    let line = Line::new();
    match ask {
        Ask::Start => line.text(b"start"),
        Ask::ReceiveHeader | Ask::Receive(_, _) => line.text(b"receive"),
        Ask::Open(n) => line.item(b"open ", n as u64),
        Ask::Turn => line.text(b"turn"),
        Ask::Abort(n) => line.item(b"abort ", n as u64),
        Ask::Lost => line.text(b"lost"),
    }
}

// The line with how a keep ended behind its end.
fn with_kept(line: Line, stopped: Option<Stopped>) -> Line {
    match stopped {
        None => line.text(b": kept"),
        Some(Stopped::Cut) => line.text(b": cut"),
        Some(Stopped::Refused(why)) => line.item(b": refused ", why.number() as u64),
    }
}

// The line with what a call wrote behind its end, and what becomes of that.
fn with_written(line: Line, withheld: bool, written: &[u8]) -> Line {
    if written.is_empty() {
        return line.text(b", nothing written");
    }
    let mut digits = [0u8; 64];
    let n = script_words::to_hex(written, &mut digits);
    let becomes = if withheld { ", withheld " } else { ", sent " };
    line.text(becomes.as_bytes()).text(first(&digits, 2 * n))
}

// Prints the line of a call: what the engine answers, how the keep ended, and what is sent or withheld.
pub(crate) fn called(
    rt: &impl Print,
    ask: Ask,
    called: Called,
    stopped: Option<Stopped>,
    written: &[u8],
) -> io::Result<()> {
    let line = text_state::answered(named(ask), called.answer, called.used);
    let told = with_written(with_kept(line, stopped), stopped.is_some(), written);
    rt.write_all(told.text(b"\n").as_bytes())
}

// Prints what the journal holds: its entries, and the starts that are not to be retried.
pub(crate) fn journal(rt: &impl Print, region: &[u8]) -> io::Result<()> {
    rt.println(ReadText(journal_read::read_entries(region)))?;
    rt.println(ListText(journal_read::list(region)))
}
