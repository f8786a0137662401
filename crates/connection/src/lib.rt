// One end of a connection as a whole: its role, its starting rations, its table of sessions, and how it ends.
#![tactic(auto)]

mod ending;
mod stages;
mod table;

pub use ending::{ended, ended_session};
pub use stages::{exchanged, far_start, own_start, role_of};
pub use table::{session_at, with_session};

// What ends a connection.
#[derive(Clone, Copy, Debug, PartialEq, Eq)]
pub enum Cause {
    ShutdownReceived,
    ErrorReceived,
    OwnShutdown,
    LineLost,
}
