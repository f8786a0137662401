// The session of three words, and what a word says of a session.
ghost use Rattle.std.specs.Prelude.{◌≡◌, ◌*◌, ◌/◌, ◌≤◌, ◌<◌};
ghost use Rattle.protocol.specs.Ask.{ready_session};
ghost use Rattle.words.specs.Session.{endless_number, outcome_cases, phases_end, ration_in, phase_of, sides_in, held_in, session_of, status_limit};
ghost use Rattle.words_access.specs.Access.{status_session};

use crate::kinds::{Numbered, split};
use crate::{
    ENDED_FROM, ENDLESS, FINISH_FROM, OPEN_FROM, OPENING_FROM, OPENING_STATUS, STATUS_END,
    WAITING_FROM,
};
use ration::Ration;
use state::{Outcome, Session, Side, Sides};
use wire::Role;

#[tactic(auto, unfolding(words::specs::Session::ration_in, laws::specs::Pick::pick))]
fn ration_of(n: u64) -> Ration
    requires { n ≤ endless_number }
    ensures { result ≡ ration_in n }
{
    match n {
        ENDLESS => Ration::Endless,
        _ => Ration::Finite(n as u32),
    }
}

// The sides of a phase, whatever number it is, and what is held for a side that sends.
#[tactic(auto, unfolding(words::specs::Session::phase_of, words::specs::Session::resting_sides, laws::specs::Pick::pick))]
fn phase_of(z: u64) -> (Sides, u64)
    ensures sides { result.0 ≡ sides_in (phase_of z) }
    ensures held { result.1 ≡ held_in (phase_of z) }
{
    match z {
        0 => (Sides::Idle, 0),
        1..ENDED_FROM => (Sides::Live(Side::Finished, Side::from_number(z - 1)), 0),
        ENDED_FROM..OPEN_FROM => (
            Sides::Live(Side::Ended, Side::from_number(z - ENDED_FROM)),
            0,
        ),
        OPEN_FROM..OPENING_FROM => {
            let (theirs, held) = split(z - OPEN_FROM);
            (Sides::Live(Side::Open, theirs), held)
        }
        _ => {
            let (before, held) = split(z - OPENING_FROM);
            (Sides::Opening(before), held)
        }
    }
}

// A session with the sides and the outcome that a status has, whatever number it is, and blank otherwise.
pub fn status_session(status: u64) -> Session
    ensures { result ≡ status_session status }
{
    let (outcome, phase) = split(status);
    let (sides, _) = phase_of(phase);
    Session {
        sides,
        outcome,
        ..Session::BLANK
    }
}

// The session of three words that are in their ranges.
#[tactic(auto, unfolding(words::specs::Session::session_of))]
pub(crate) fn session_of(outbound: u64, inbound: u64, status: u64) -> Session
    requires { (outbound ≤ endless_number) × (inbound ≤ endless_number) × (status < outcome_cases * phases_end) }
    ensures { result ≡ session_of outbound inbound status }
{
    let (outcome, phase) = split(status);
    let (sides, held) = phase_of(phase);
    let (finish, waiting) = split(held);
    Session {
        sides,
        outbound: ration_of(outbound),
        inbound: ration_of(inbound),
        waiting: waiting as u16,
        finish,
        outcome,
    }
}

// The number that every status is below: idle alone before the headers are exchanged, no opening at a server.
#[tactic(auto, unfolding(words::specs::Session::status_limit, laws::specs::Pick::pick))]
pub fn status_limit(role: Role, up: bool) -> u64
    ensures { (result ≡ status_limit role up) × (result ≤ outcome_cases * phases_end) }
{
    match (up, role) {
        (false, _) => Outcome::CASES,
        (true, Role::Client) => STATUS_END,
        (true, Role::Server) => OPENING_STATUS,
    }
}

// Whether the session of these words is ready for a turn: open with bytes and a ration, open with none and a finish, or opening.
#[tactic(auto, using(words::proofs::Ready::ready_words_lem), unfolding(words::specs::Session::ready_words, laws::specs::Pick::pick))]
pub fn is_ready(outbound: u64, status: u64) -> bool
    ensures { (inbound : _) → result ≡ ready_session (session_of outbound inbound status) }
{
    match status {
        ..FINISH_FROM => false,
        FINISH_FROM..WAITING_FROM => true,
        WAITING_FROM..OPENING_STATUS => 0 < outbound,
        _ => true,
    }
}
