// The words of a state, read and set: where each word is, a session, the parts of the head, the end of a connection, and a state just made.
#![tactic(auto)]

mod ending;
mod head;
mod kinds;
mod making;
mod read;
mod table;
mod write;

pub use ending::end_state;
pub use head::{
    awaits_cookie, far_start, head_at, is_exchanged, is_fresh_state, is_outstanding, is_over,
    is_unstarted, last_served, own_number, own_start, role_at, set_last, set_ping, set_stage,
};
use kinds::Numbered;
pub use making::make_state;
pub use read::{is_ready, status_limit, status_session};
use session::SLOT_SIZE;
use state::{Before, Outcome, Side};
pub use table::{session_at, set_session, word_count};

// How many words a state has: a column of 128 for what is left of the outbound rations, one for the inbound ones, one for the status, and
// a head of 16.
pub const STATE_WORDS: usize = 400;

// Kept: programs in C lend the words themselves, so they stay an array of numbers.
pub type Words = [u64; STATE_WORDS];

// How many session numbers there are.
pub(crate) const SESSIONS: usize = 128;

// Where the columns behind the first begin, and each word of the head. The words from SPARE_AT on are zero.
pub const INBOUND_AT: usize = 128;

pub const STATUS_AT: usize = 256;

pub const STAGE_AT: usize = 384;

pub const OVER_AT: usize = 385;

pub const OWN_AT: usize = 386;

pub const LAST_AT: usize = 387;

pub const PING_AT: usize = 388;

pub const SPARE_AT: usize = 389;

// How many numbers 16 bits have, and with them the stages and the pings.
pub const NUMBERS16: u64 = 65_536;

pub const STAGE_CASES: u64 = 3 + 2 * NUMBERS16;

pub const PING_CASES: u64 = 1 + NUMBERS16;

// The word of an endless ration; a finite one is its number.
pub const ENDLESS: u64 = 2_147_483_648;

// How many numbers there are for what is held for a side that sends.
const HELD_CASES: u64 = bool::CASES * ((SLOT_SIZE as u64) + 1);

// The phases: 0 idle, then our side finished, ended, open and opening.
pub(crate) const ENDED_FROM: u64 = 1 + Side::CASES;

pub(crate) const OPEN_FROM: u64 = ENDED_FROM + Side::CASES;

pub(crate) const OPENING_FROM: u64 = OPEN_FROM + Side::CASES * HELD_CASES;

const PHASES_END: u64 = OPENING_FROM + Before::CASES * HELD_CASES;

// The first status of an open side with a finish asked for, of one with bytes waiting, of an opening, and the number above all.
pub(crate) const FINISH_FROM: u64 = Outcome::CASES * (OPEN_FROM + Side::CASES);

pub(crate) const WAITING_FROM: u64 = Outcome::CASES * (OPEN_FROM + 2 * Side::CASES);

pub(crate) const OPENING_STATUS: u64 = Outcome::CASES * OPENING_FROM;

pub(crate) const STATUS_END: u64 = Outcome::CASES * PHASES_END;
