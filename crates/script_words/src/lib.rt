// The words of a script's line: where a word ends, bytes, and decimal numbers.
#![tactic(auto)]

mod hex;
mod numbers;
mod words;

pub use hex::{from_hex, is_bytes, to_hex};
pub use numbers::{decimal_of, id_of, short_of, size_of};
pub use words::{has_more, head, is, is_skipped, tail};
