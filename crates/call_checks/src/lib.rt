// What the calls share: their checks in order, their results, and the step of one session in a call that writes.
#![tactic(auto)]

mod gates;
mod results;
mod stepping;

pub use gates::{is_running, is_up, refuse_if, to_session, to_start, to_write};
pub use results::{answered, done, refused};
pub use stepping::take_step_in;
