// The calls on the connection as a whole: start, ping, shutdown and lost line.
#![tactic(auto)]

mod ending;
mod starting;

pub use ending::{lost_line, shutdown};
pub use starting::{ping, start};
