// The words of the parts of a state.
ghost use Rattle.std.specs.Prelude.{◌≡◌, Some};
ghost use Rattle.text_state.specs.Parts.{role_text, side_text, sides_text, outcome_text, ration_text};

use ration::Ration;
use state::{Outcome, Side, Sides};
use std::fmt;
use wire::Role;

pub(crate) fn role_words(role: Role) -> &'static str
    ensures { result.now ≡ role_text role }
{
    match role {
        Role::Client => " client",
        Role::Server => " server",
    }
}

pub(crate) fn side_words(side: Side) -> &'static str
    ensures { result.now ≡ side_text side }
{
    match side {
        Side::Open => " open",
        Side::Finished => " finished",
        Side::Ended => " ended",
    }
}

pub(crate) fn outcome_words(outcome: Outcome) -> &'static str
    ensures { result.now ≡ outcome_text outcome }
{
    match outcome {
        Outcome::None => " outcome none",
        Outcome::Running => " outcome running",
        Outcome::Complete => " outcome complete",
        Outcome::MayRetry => " outcome retry",
        Outcome::MustNotRetry => " outcome no-retry",
    }
}

/// Both sides of a session in words.
#[derive(Clone, Copy)]
pub(crate) struct SidesText(pub(crate) Sides);

impl fmt::Display for SidesText {
    ghost output = { λ sides. Some (sides_text sides.0) };

    fn fmt<W: fmt::Write>(&self, f: &mut fmt::Formatter<W>) -> fmt::Result {
        match self.0 {
            Sides::Idle => f.write_str(" idle none"),
            Sides::Opening(_) => f.write_str(" opening none"),
            Sides::Live(ours, theirs) => {
                let ours = side_words(ours);
                let theirs = side_words(theirs);
                write!(f, "{ours}{theirs}")
            }
        }
    }
}

/// A ration in words: how many bytes are left, or that it is endless.
#[derive(Clone, Copy)]
pub struct RationText(pub Ration);

impl fmt::Display for RationText {
    ghost output = { λ ration. Some (ration_text ration.0) };

    fn fmt<W: fmt::Write>(&self, f: &mut fmt::Formatter<W>) -> fmt::Result {
        match self.0 {
            Ration::Finite(n) => write!(f, "{n}"),
            Ration::Endless => f.write_str("endless"),
        }
    }
}
