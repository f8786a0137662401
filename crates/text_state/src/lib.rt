// The words of a call's answer, and of the state of a connection and each session.
#![tactic(auto)]

mod answers;
mod lines;
mod parts;
mod states;

pub use answers::AnswerText;
pub use lines::{answered, connection_line, session_line, with_ration};
pub use parts::RationText;
pub use states::{ConnectionText, SessionText, is_shown};
