// The words of the current state.
ghost use Rattle.std.specs.Prelude.{◌≡◌, Some};
ghost use Rattle.text_state.specs.States.{stage_text, ping_text, connection_text, waiting_text, in_text, out_text, live_text, counts_text, session_text, has_outcome, shown_by};

use crate::parts::{RationText, SidesText, outcome_words, role_words};
use ration::Ration;
use state::{Connection, Outcome, Session, Side, Sides, Stage};
use std::fmt;
use text_line::Flag;

/// A stage in words: the role, and how far the headers are exchanged.
#[derive(Clone, Copy)]
struct StageText(Stage);

impl fmt::Display for StageText {
    ghost output = { λ stage. Some (stage_text stage.0) };

    fn fmt<W: fmt::Write>(&self, f: &mut fmt::Formatter<W>) -> fmt::Result {
        match self.0 {
            Stage::Fresh(role) => {
                let role = role_words(role);
                write!(f, "{role} fresh")
            }
            Stage::Started => f.write_str(" client started"),
            Stage::Up(role, far) => {
                let role = role_words(role);
                write!(f, "{role} up {far}")
            }
        }
    }
}

/// The outstanding ping in words.
#[derive(Clone, Copy)]
struct PingText(Option<u16>);

impl fmt::Display for PingText {
    ghost output = { λ ping. Some (ping_text ping.0) };

    fn fmt<W: fmt::Write>(&self, f: &mut fmt::Formatter<W>) -> fmt::Result {
        match self.0 {
            None => f.write_str(" ping none"),
            Some(cookie) => write!(f, " ping {cookie}"),
        }
    }
}

/// The line of a connection.
#[derive(Clone, Copy)]
pub struct ConnectionText<'a>(pub &'a Connection);

impl fmt::Display for ConnectionText<'_> {
    ghost output = { λ c. Some (connection_text c.0.now) };

    fn fmt<W: fmt::Write>(&self, f: &mut fmt::Formatter<W>) -> fmt::Result {
        let stage = StageText(self.0.stage);
        let over = Flag {
            name: " over",
            set: self.0.over,
        };
        let last = self.0.last;
        let ping = PingText(self.0.ping);
        write!(f, "connection{stage}{over} last {last}{ping}")
    }
}

/// What waits in words: how many bytes, and a finish behind them, where it is asked for.
#[derive(Clone, Copy)]
struct WaitingText {
    waiting: u16,
    finish: bool,
}

impl fmt::Display for WaitingText {
    ghost output = { λ w. Some (waiting_text w.waiting w.finish) };

    fn fmt<W: fmt::Write>(&self, f: &mut fmt::Formatter<W>) -> fmt::Result {
        let waiting = self.waiting;
        let finish = Flag {
            name: " finish",
            set: self.finish,
        };
        write!(f, " waiting {waiting}{finish}")
    }
}

/// The inbound ration in words, where it counts: their side is open.
#[derive(Clone, Copy)]
struct InText {
    theirs: Side,
    inbound: Ration,
}

impl fmt::Display for InText {
    ghost output = { λ i. Some (in_text i.theirs i.inbound) };

    fn fmt<W: fmt::Write>(&self, f: &mut fmt::Formatter<W>) -> fmt::Result {
        let inbound = RationText(self.inbound);
        match self.theirs {
            Side::Open => write!(f, " in {inbound}"),
            Side::Finished | Side::Ended => Ok(()),
        }
    }
}

/// The outbound ration in words.
#[derive(Clone, Copy)]
struct OutText(Ration);

impl fmt::Display for OutText {
    ghost output = { λ outbound. Some (out_text outbound.0) };

    fn fmt<W: fmt::Write>(&self, f: &mut fmt::Formatter<W>) -> fmt::Result {
        let outbound = RationText(self.0);
        write!(f, " out {outbound}")
    }
}

/// What counts of a session with two sides in words.
#[derive(Clone, Copy)]
struct LiveText {
    ours: Side,
    theirs: Side,
    session: Session,
}

impl fmt::Display for LiveText {
    ghost output = { λ live. Some (live_text live.ours live.theirs live.session) };

    fn fmt<W: fmt::Write>(&self, f: &mut fmt::Formatter<W>) -> fmt::Result {
        let inbound = InText {
            theirs: self.theirs,
            inbound: self.session.inbound,
        };
        match self.ours {
            Side::Open => {
                let outbound = OutText(self.session.outbound);
                let waiting = WaitingText {
                    waiting: self.session.waiting,
                    finish: self.session.finish,
                };
                write!(f, "{outbound}{inbound}{waiting}")
            }
            Side::Finished => write!(f, "{inbound}"),
            Side::Ended => Ok(()),
        }
    }
}

/// What counts of a session in words.
#[derive(Clone, Copy)]
struct CountsText(Session);

impl fmt::Display for CountsText {
    ghost output = { λ x. Some (counts_text x.0.sides x.0) };

    fn fmt<W: fmt::Write>(&self, f: &mut fmt::Formatter<W>) -> fmt::Result {
        let session = self.0;
        match session.sides {
            Sides::Idle => Ok(()),
            Sides::Opening(_) => {
                let waiting = WaitingText {
                    waiting: session.waiting,
                    finish: session.finish,
                };
                write!(f, "{waiting}")
            }
            Sides::Live(ours, theirs) => {
                let live = LiveText {
                    ours,
                    theirs,
                    session,
                };
                write!(f, "{live}")
            }
        }
    }
}

/// The line of a session by its number.
#[derive(Clone, Copy)]
pub struct SessionText {
    pub number: u8,
    pub session: Session,
}

impl fmt::Display for SessionText {
    ghost output = { λ s. Some (session_text s.number s.session) };

    fn fmt<W: fmt::Write>(&self, f: &mut fmt::Formatter<W>) -> fmt::Result {
        let number = self.number;
        let sides = SidesText(self.session.sides);
        let outcome = outcome_words(self.session.outcome);
        let counts = CountsText(self.session);
        write!(f, "session {number}{sides}{outcome}{counts}")
    }
}

fn has_outcome(outcome: Outcome) -> bool
    ensures { result ≡ has_outcome outcome }
{
    !matches!(outcome, Outcome::None)
}

/// Whether a session is shown: it is not idle, or has an outcome.
pub fn is_shown(x: Session) -> bool
    ensures { result ≡ shown_by x.sides x.outcome }
{
    !matches!(x.sides, Sides::Idle) || has_outcome(x.outcome)
}
