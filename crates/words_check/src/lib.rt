// Whether words are those of a connection that is well formed.
#![tactic(auto)]

ghost use Rattle.std.specs.Prelude.{◌≡◌, ◌<◌, ◌↔◌, IsTrue, EachIndex, slice_index};
ghost use Rattle.protocol.specs.Connection.{all_formed, well_formed};
ghost use Rattle.words.specs.State.{all_zero, head_in_range, sessions_of, connection_of};

use wire::Role;
use words_access::{
    ENDLESS, LAST_AT, NUMBERS16, OVER_AT, OWN_AT, PING_AT, PING_CASES, SPARE_AT, STAGE_AT,
    STAGE_CASES, STATUS_AT, Words, is_exchanged, role_at, status_limit,
};

// Whether each word is zero.
fn are_zero(words: &[u64]) -> bool
    ensures { result ≡ all_zero words.now }
{
    words.iter().all(|word| *word == 0)
}

// Whether each word is below a limit.
fn are_below(words: &[u64], limit: u64) -> bool
    ensures { IsTrue result ↔ EachIndex words.now (λ k. slice_index words.now k < limit) }
{
    words.iter().all(|word| *word < limit)
}

// Whether each word of the head, but for the number served last, is in its range.
#[tactic(auto, unfolding(words::specs::State::head_in_range))]
fn head_fits(state: &Words) -> bool
    ensures { result ≡ head_in_range state.now }
{
    state[STAGE_AT] < STAGE_CASES
        && state[OVER_AT] < 2
        && state[OWN_AT] < NUMBERS16
        && state[PING_AT] < PING_CASES
        && are_zero(&state[SPARE_AT..])
}

// Whether the words of every session are in their ranges.
fn all_formed(state: &Words, role: Role, up: bool) -> bool
    ensures { result ≡ all_formed role up (sessions_of state.now) }
{
    are_below(&state[..STATUS_AT], 1 + ENDLESS)
        && are_below(&state[STATUS_AT..STAGE_AT], status_limit(role, up))
}

// Rule 14, for any words.
#[tactic(auto, using(crate::proofs::Formed::well_formed_is))]
pub fn is_formed(state: &Words) -> bool
    ensures { result ≡ well_formed (connection_of state.now) }
{
    head_fits(state)
        && state[LAST_AT] < 128
        && all_formed(state, role_at(state), is_exchanged(state))
}
