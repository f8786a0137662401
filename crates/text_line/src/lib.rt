// Flags and bytes in a text, the first bytes of a slice, and a line of text in fixed memory.
#![tactic(auto)]

mod hex;
mod line;
mod pieces;

pub use hex::Hex;
pub use line::Line;
pub use pieces::{Flag, first};
