// The parts of a state's head: what they say, and how they are set.
ghost use Rattle.std.specs.Prelude.{◌≡◌, ◌%◌, get_or, set};
ghost use Rattle.ration.specs.Ration.{from_header};
ghost use Rattle.protocol.specs.Connection.{role_of, exchanged, far_number};
ghost use Rattle.protocol.specs.Judge.{matches};
ghost use Rattle.protocol.specs.Call.{is_fresh, is_outstanding, unstarted};
ghost use Rattle.words.specs.State.{stage_at, last_at, ping_at, numbers16, stage_number, ping_number, connection_of};
ghost use Rattle.words_access.specs.Access.{stage_read, ping_read, head_read};

use crate::kinds::{Numbered, split};
use crate::write::{ping_number, stage_number};
use crate::{
    LAST_AT, NUMBERS16, OVER_AT, OWN_AT, PING_AT, PING_CASES, STAGE_AT, STAGE_CASES, Words,
};
use ration::Ration;
use state::{Head, Stage};
use wire::Role;

// Whether the headers are exchanged.
#[tactic(auto, using(crate::proofs::Heads::exchanged_word), unfolding(words::specs::State::connection_of))]
pub fn is_exchanged(state: &Words) -> bool
    ensures { result ≡ exchanged (connection_of state.now).stage }
{
    3 <= state[STAGE_AT]
}

// Whether no header was sent or received.
#[tactic(auto, using(crate::proofs::Heads::fresh_word), unfolding(words::specs::State::connection_of))]
pub fn is_fresh_state(state: &Words) -> bool
    ensures { result ≡ is_fresh (connection_of state.now).stage }
{
    state[STAGE_AT] < 2
}

// Whether it is a client that has not sent its header.
#[tactic(auto, using(crate::proofs::Heads::unstarted_word), unfolding(words::specs::State::connection_of))]
pub fn is_unstarted(state: &Words) -> bool
    ensures { result ≡ unstarted (connection_of state.now).stage }
{
    state[STAGE_AT] == 0
}

#[tactic(auto, unfolding(words::specs::State::connection_of, words::specs::State::stage_of, laws::specs::Pick::pick))]
pub fn role_at(state: &Words) -> Role
    ensures { result ≡ role_of (connection_of state.now).stage }
{
    match state[STAGE_AT] {
        2 => Role::Client,
        word @ ..2 => Role::from_number(word),
        word => Role::from_number((word - 3) % Role::CASES),
    }
}

// Whether the connection is over.
#[tactic(auto, unfolding(words::specs::State::connection_of))]
pub fn is_over(state: &Words) -> bool
    ensures { result ≡ (connection_of state.now).over }
{
    state[OVER_AT] == 1
}

// The number of our header.
#[tactic(auto, unfolding(words::specs::State::connection_of))]
pub fn own_number(state: &Words) -> u16
    ensures { result ≡ (connection_of state.now).own % numbers16 }
{
    (state[OWN_AT] % NUMBERS16) as u16
}

// The starting ration that our header grants.
pub fn own_start(state: &Words) -> Ration
    ensures { result ≡ from_header ((connection_of state.now).own % numbers16) }
{
    Ration::from_header(own_number(state))
}

#[tactic(auto, using(crate::proofs::Heads::far_word), unfolding(words::specs::State::connection_of))]
fn far_number(state: &Words) -> u16
    ensures { result ≡ far_number (connection_of state.now).stage % numbers16 }
{
    (state[STAGE_AT].saturating_sub(3) / Role::CASES % NUMBERS16) as u16
}

// The starting ration that the far header grants.
pub fn far_start(state: &Words) -> Ration
    ensures { result ≡ from_header (far_number (connection_of state.now).stage % numbers16) }
{
    Ration::from_header(far_number(state))
}

// The number that a turn served last.
pub fn last_served(state: &Words) -> u8
    ensures { result ≡ get_or state.now last_at 0 % 256 }
{
    (state[LAST_AT] % 256) as u8
}

// Whether a ping is outstanding.
#[tactic(auto, using(crate::proofs::Heads::outstanding_word), unfolding(words::specs::State::connection_of))]
pub fn is_outstanding(state: &Words) -> bool
    ensures { result ≡ is_outstanding (connection_of state.now).ping }
{
    state[PING_AT] != 0
}

// Whether a cookie is that of the outstanding ping.
#[tactic(auto, using(crate::proofs::Heads::cookie_word), unfolding(words::specs::State::connection_of))]
pub fn awaits_cookie(state: &Words, cookie: u16) -> bool
    ensures { result ≡ matches (connection_of state.now).ping cookie }
{
    state[PING_AT] == 1 + u64::from(cookie)
}

// The stage of a word; a word above its range has a client's first one.
#[tactic(auto, unfolding(crate::specs::Access::stage_read, words::specs::State::stage_of, laws::specs::Pick::pick))]
fn read_stage(word: u64) -> Stage
    ensures { result ≡ stage_read word }
{
    match word {
        ..2 => Stage::Fresh(Role::from_number(word)),
        2 => Stage::Started,
        3..STAGE_CASES => {
            let (role, far) = split(word - 3);
            Stage::Up(role, far as u16)
        }
        _ => Stage::Fresh(Role::Client),
    }
}

// The ping of a word; a word above its range has none.
#[tactic(auto, unfolding(crate::specs::Access::ping_read, words::specs::State::ping_in, laws::specs::Pick::pick))]
fn read_ping(word: u64) -> Option<u16>
    ensures { result ≡ ping_read word }
{
    match word {
        1..PING_CASES => Some((word - 1) as u16),
        _ => None,
    }
}

// The head of a connection; words above their ranges are read as something in it.
#[tactic(auto, unfolding(crate::specs::Access::head_read, words::specs::State::connection_of))]
pub fn head_at(state: &Words) -> Head
    ensures { result ≡ head_read state.now }
{
    Head {
        stage: read_stage(state[STAGE_AT]),
        over: is_over(state),
        own: own_number(state),
        last: last_served(state),
        ping: read_ping(state[PING_AT]),
    }
}

pub fn set_stage(state: &mut Words, stage: Stage)
    ensures { state.new ≡ set state.old stage_at (stage_number stage) }
{
    state[STAGE_AT] = stage_number(stage);
}

pub fn set_last(state: &mut Words, n: u8)
    ensures { state.new ≡ set state.old last_at n }
{
    state[LAST_AT] = u64::from(n);
}

pub fn set_ping(state: &mut Words, ping: Option<u16>)
    ensures { state.new ≡ set state.old ping_at (ping_number ping) }
{
    state[PING_AT] = ping_number(ping);
}
