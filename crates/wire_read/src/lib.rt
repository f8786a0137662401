// The reader of messages.
#![tactic(auto)]

ghost use Rattle.std.specs.Prelude.{◌≡◌};
ghost use Rattle.wire.specs.Message.{body_length};

mod headers;
mod messages;

pub use messages::{parse_header, read_message, read_sized};
use wire::Message;

// A message, and how many bytes it has, its header and its body.
#[derive(Clone, Copy, Debug, PartialEq, Eq)]
pub struct Sized {
    pub message: Message,
    pub size: usize,
}

// A message, and how many bytes follow its header: the arm of each type knows this, so that no later match on the type is needed.
#[derive(Clone, Copy)]
pub(crate) struct Parsed {
    pub message: Message,
    pub body: u16,
    ghost right: { body ≡ body_length message },
}
