// The session of a number, read from its three words and set in place.
ghost use Rattle.std.specs.Prelude.{◌≡◌, length};
ghost use Rattle.words_access.specs.Access.{session_read, session_at_words, session_set};

use crate::read::session_of;
use crate::write::{ration_number, status_word};
use crate::{ENDLESS, INBOUND_AT, SESSIONS, STATUS_AT, STATUS_END, Words};
use state::Session;

// How many words a slice has.
// Kept: it is public, and the calls on words that are still to come (docs/words-calls.patch) name it.
pub fn word_count(words: &[u64]) -> usize
    ensures { result ≡ length words.now }
{
    words.len()
}

// The session of three words; words that are out of their ranges have a blank one.
#[tactic(auto, unfolding(crate::specs::Access::session_read, laws::specs::Pick::pick))]
fn read_session(outbound: u64, inbound: u64, status: u64) -> Session
    ensures { result ≡ session_read outbound inbound status }
{
    if outbound <= ENDLESS && inbound <= ENDLESS && status < STATUS_END {
        session_of(outbound, inbound, status)
    } else {
        Session::BLANK
    }
}

// The session of a number; a number above 127, and words that are out of their ranges, have a blank one.
#[tactic(auto, unfolding(crate::specs::Access::session_at_words, laws::specs::Pick::pick))]
pub fn session_at(state: &Words, n: u8) -> Session
    ensures { result ≡ session_at_words state.now n }
{
    let i = usize::from(n);
    if i < SESSIONS {
        read_session(state[i], state[INBOUND_AT + i], state[STATUS_AT + i])
    } else {
        Session::BLANK
    }
}

// Sets the session of a number; a number above 127 changes nothing.
#[tactic(auto, unfolding(crate::specs::Access::session_set, laws::specs::Pick::pick))]
pub fn set_session(state: &mut Words, n: u8, x: Session)
    ensures { state.new ≡ session_set state.old n x }
{
    let i = usize::from(n);
    if i < SESSIONS {
        state[i] = ration_number(x.outbound);
        state[INBOUND_AT + i] = ration_number(x.inbound);
        state[STATUS_AT + i] = status_word(x);
    }
}
