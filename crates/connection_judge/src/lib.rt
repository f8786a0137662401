// The decision of a receive, before its reply is written: what a message does to the connection, and which bytes it takes.
#![tactic(auto)]

mod extents;
mod judging;
mod verdicts;

use connection_output::Outgoing;
pub use extents::extent_of;
pub use judging::judge;
use refusal::Failure;
use state::{Answer, Connection};
pub use verdicts::{incomplete, violated};

// What is written: at most one thing, or our connection header and then Error.
#[derive(Clone, Copy, Debug, PartialEq, Eq)]
pub enum Reply {
    Only(Option<Outgoing>),
    HeaderError(u16),
}

// The decision of a receive: the connection after it, the answer, and the reply, which is not yet written.
#[derive(Clone, Copy, Debug, PartialEq, Eq)]
pub struct Judged {
    pub connection: Connection,
    pub answer: Result<Answer, Failure>,
    pub reply: Reply,
}

// How many bytes of the input an answer uses, and where among them its payload starts and ends.
#[derive(Clone, Copy, Debug, PartialEq, Eq)]
pub struct Extent {
    pub used: usize,
    pub start: usize,
    pub end: usize,
}

impl Extent {
    // No byte of the input.
    pub const NONE: Extent = Extent {
        used: 0,
        start: 0,
        end: 0,
    };
}
