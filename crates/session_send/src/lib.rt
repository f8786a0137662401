// One session's steps for sending: put bytes, ask for the end, and the turn that sends them.
#![tactic(auto)]

mod putting;
mod turns;

pub use putting::{step_finish, step_put};
pub use turns::{ready, step_turn};
