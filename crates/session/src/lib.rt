// One session: what a step of it answers, and the parts that the steps share. The table of sessions is not here.
#![tactic(auto)]

pub mod parts;

use state::Session;

// How many bytes of the queue each session number has.
pub const SLOT_SIZE: u16 = 512;

// A message of ours for a session: no detail, and an increment unshifted.
#[derive(Clone, Copy, Debug, PartialEq, Eq)]
pub enum Sent {
    Data { length: u16, opens: bool, eof: bool },
    Increment(u16),
    Abort(bool),
    Close,
}

// The session after a step, what is sent, and whether the message received was late.
#[derive(Clone, Copy, Debug, PartialEq, Eq)]
pub struct Taken {
    pub session: Session,
    pub sent: Option<Sent>,
    pub late: bool,
}
