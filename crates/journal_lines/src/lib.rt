// The script of a journal: what a line asks.
#![tactic(auto)]

mod blocks;
mod keywords;
mod lines;

pub use blocks::{block_named, damage};
pub use lines::{first_line, later_line};

// A line that the format does not have.
#[derive(Clone, Copy, Debug, PartialEq, Eq)]
pub struct WrongLine;

// A call that changes the region: the store of a session number and a kind, or a repair.
#[derive(Clone, Copy, Debug, PartialEq, Eq)]
pub enum Change {
    Store(u8, u8),
    Repair,
}

// What a line asks where there is a region: a change, with as many byte stores before the power is cut, or all; a call that reads; a byte
// at a place; or the print of a block.
#[derive(Clone, Copy, Debug, PartialEq, Eq)]
pub enum Asked {
    Change(Change, Option<usize>),
    Read,
    List,
    Damage(usize, u8),
    Block(u32),
}

// What the first word of a line names where there is a region.
#[derive(Clone, Copy, Debug, PartialEq, Eq)]
pub enum Keyword {
    Store,
    Repair,
    Read,
    List,
    Damage,
    Block,
}
