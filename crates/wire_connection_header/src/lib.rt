// The header at the start of each direction, read and written.
#![tactic(auto)]

mod reading;
mod writing;

pub use reading::{parse_connection_header, read_connection_header};
pub use writing::write_connection_header;
