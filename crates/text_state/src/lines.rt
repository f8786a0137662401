// The words of an answer, and of the current state, put behind the end of a line of text.
ghost use Rattle.std.specs.Prelude.{[]};
ghost use Rattle.text_line.specs.Line.{line_text, added, LineIs};
ghost use Rattle.text_state.specs.Answers.{taken_text, answer_text};
ghost use Rattle.text_state.specs.Parts.{role_text, sides_text, outcome_text, ration_text};
ghost use Rattle.text_state.specs.States.{stage_text, ping_text, connection_text, waiting_text, in_text, out_text, live_text, counts_text, session_text};

use crate::parts::{outcome_words, role_words, side_words};
use ration::Ration;
use refusal::Failure;
use state::{Answer, Connection, Outcome, Session, Side, Sides, Stage};
use text_line::Line;
use text_message::{with_failure, with_message};
use wire::{Message, Role};

// The line with a message that was taken behind its end.
fn taken(line: Line, m: Message, late: bool, used: usize) -> Line
    ensures { LineIs result (added (line_text line) (taken_text m late used)) }
{
    with_message(line.text(b" ok "), m)
        .flag(b" late", late)
        .item(b" used ", used as u64)
}

/// The line with what a call answers, or why it does not, behind its end; the words of a header or a message tell how many bytes of the
/// input it used.
pub fn answered(line: Line, answer: Result<Answer, Failure>, used: usize) -> Line
    ensures { LineIs result (added (line_text line) (answer_text answer used)) }
{
    match answer {
        Ok(Answer::Done) => line.text(b" ok"),
        Ok(Answer::Served(n)) => line.item(b" ok id ", n as u64),
        Ok(Answer::Header(far)) => line
            .item(b" ok header ", far as u64)
            .item(b" used ", used as u64),
        Ok(Answer::Message { message, late }) => taken(line, message, late, used),
        Err(failure) => with_failure(line, failure),
    }
}

fn with_role(line: Line, role: Role) -> Line
    ensures { LineIs result (added (line_text line) (role_text role)) }
{
    line.text(role_words(role).as_bytes())
}

fn with_stage(line: Line, stage: Stage) -> Line
    ensures { LineIs result (added (line_text line) (stage_text stage)) }
{
    match stage {
        Stage::Fresh(role) => with_role(line, role).text(b" fresh"),
        Stage::Started => line.text(b" client started"),
        Stage::Up(role, far) => with_role(line, role).item(b" up ", far as u64),
    }
}

fn with_ping(line: Line, ping: Option<u16>) -> Line
    ensures { LineIs result (added (line_text line) (ping_text ping)) }
{
    match ping {
        None => line.text(b" ping none"),
        Some(cookie) => line.item(b" ping ", cookie as u64),
    }
}

/// The line of a connection.
pub fn connection_line(c: Connection) -> Line
    ensures { LineIs result (added [] (connection_text c)) }
{
    let line = with_stage(Line::new().text(b"connection"), c.stage)
        .flag(b" over", c.over)
        .item(b" last ", c.last as u64);
    with_ping(line, c.ping)
}

fn with_sides(line: Line, sides: Sides) -> Line
    ensures { LineIs result (added (line_text line) (sides_text sides)) }
{
    match sides {
        Sides::Idle => line.text(b" idle none"),
        Sides::Opening(_) => line.text(b" opening none"),
        Sides::Live(ours, theirs) => line
            .text(side_words(ours).as_bytes())
            .text(side_words(theirs).as_bytes()),
    }
}

fn with_outcome(line: Line, outcome: Outcome) -> Line
    ensures { LineIs result (added (line_text line) (outcome_text outcome)) }
{
    line.text(outcome_words(outcome).as_bytes())
}

/// The line with a ration behind its end: how many bytes are left, or that it is endless.
pub fn with_ration(line: Line, ration: Ration) -> Line
    ensures { LineIs result (added (line_text line) (ration_text ration)) }
{
    match ration {
        Ration::Finite(n) => line.number(n as u64),
        Ration::Endless => line.text(b"endless"),
    }
}

fn with_out(line: Line, outbound: Ration) -> Line
    ensures { LineIs result (added (line_text line) (out_text outbound)) }
{
    with_ration(line.text(b" out "), outbound)
}

fn with_in(line: Line, theirs: Side, inbound: Ration) -> Line
    ensures { LineIs result (added (line_text line) (in_text theirs inbound)) }
{
    match theirs {
        Side::Open => with_ration(line.text(b" in "), inbound),
        Side::Finished => line.text(b""),
        Side::Ended => line.text(b""),
    }
}

fn with_waiting(line: Line, waiting: u16, finish: bool) -> Line
    ensures { LineIs result (added (line_text line) (waiting_text waiting finish)) }
{
    line.item(b" waiting ", waiting as u64)
        .flag(b" finish", finish)
}

// The line with, behind its end, what counts of a session with two sides.
fn with_live(line: Line, ours: Side, theirs: Side, x: Session) -> Line
    ensures { LineIs result (added (line_text line) (live_text ours theirs x)) }
{
    match ours {
        Side::Open => {
            let rations = with_in(with_out(line, x.outbound), theirs, x.inbound);
            with_waiting(rations, x.waiting, x.finish)
        }
        Side::Finished => with_in(line, theirs, x.inbound),
        Side::Ended => line.text(b""),
    }
}

// The line with, behind its end, what counts of a session.
fn with_counts(line: Line, x: Session) -> Line
    ensures { LineIs result (added (line_text line) (counts_text x.sides x)) }
{
    match x.sides {
        Sides::Idle => line.text(b""),
        Sides::Opening(_) => with_waiting(line, x.waiting, x.finish),
        Sides::Live(ours, theirs) => with_live(line, ours, theirs, x),
    }
}

/// The line of a session by its number.
pub fn session_line(n: u8, x: Session) -> Line
    ensures { LineIs result (added [] (session_text n x)) }
{
    let line = with_sides(Line::new().item(b"session ", n as u64), x.sides);
    with_counts(with_outcome(line, x.outcome), x)
}
