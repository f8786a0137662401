// What may be at a place of a capture, and the place to read on from.
#![tactic(auto)]

use refusal::Failure;
use wire::Message;

// What is at a place, where the place of a fault counts from the message's first byte; and the place to read on from: behind
// a message, or the same place after a refusal.
#[derive(Clone, Copy, Debug, PartialEq, Eq)]
pub struct Step {
    pub next: Result<Message, Failure>,
    pub place: usize,
}
