// What reader and writer share about a message: its items, how many bytes follow it or are granted by it, and who may send it.
#![tactic(auto)]

mod amounts;
mod items;
mod roles;
mod senders;

pub use amounts::{body_length, effective_increment};
pub use items::{kind_of_message, number_of, second_byte, shift_of};
pub use roles::{is_client, is_server};
pub use senders::{abort_flags, data_flags, flags_allowed, may_send};
