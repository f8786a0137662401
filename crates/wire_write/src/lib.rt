// The writer of messages: the header bytes of any message, and a message with its body in a room.
#![tactic(auto)]

mod headers;
mod messages;

pub use headers::header_of;
pub use messages::{put_message, write_message};
