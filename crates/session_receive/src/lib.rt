// One session's step at each received message. The table of sessions is not here.
#![tactic(auto)]

mod data_messages;
mod end_messages;
mod increments;
mod replies;

pub use data_messages::{Data, receive_data};
pub use end_messages::{receive_abort, receive_acknowledgment, receive_close};
pub use increments::receive_increment;
