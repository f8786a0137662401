// The words of a session, of a stage and of a ping.
ghost use Rattle.std.specs.Prelude.{◌≡◌, ◌*◌, ◌≤◌, ◌<◌};
ghost use Rattle.words.specs.Session.{ration_number, phase_number, status_word};
ghost use Rattle.words.specs.State.{numbers16, stage_number, ping_number};

use crate::kinds::{Numbered, join};
use crate::{ENDED_FROM, ENDLESS, OPEN_FROM, OPENING_FROM};
use ration::Ration;
use state::{Session, Side, Sides, Stage};

pub(crate) fn ration_number(r: Ration) -> u64
    ensures { result ≡ ration_number r }
{
    match r {
        Ration::Finite(n) => u64::from(n),
        Ration::Endless => ENDLESS,
    }
}

fn phase_number(sides: Sides, held: u64) -> u64
    requires { held < 2 * numbers16 }
    ensures { (result ≡ phase_number sides held) × (result ≤ 8 * numbers16) }
{
    match sides {
        Sides::Idle => 0,
        Sides::Live(Side::Finished, theirs) => 1 + theirs.number(),
        Sides::Live(Side::Ended, theirs) => ENDED_FROM + theirs.number(),
        Sides::Live(Side::Open, theirs) => OPEN_FROM + join(theirs, held),
        Sides::Opening(before) => OPENING_FROM + join(before, held),
    }
}

// The status of a session.
#[tactic(auto, unfolding(words::specs::Session::status_word))]
pub(crate) fn status_word(x: Session) -> u64
    ensures { result ≡ status_word x }
{
    let held = join(x.finish, u64::from(x.waiting));
    join(x.outcome, phase_number(x.sides, held))
}

// The word of a stage.
pub(crate) fn stage_number(s: Stage) -> u64
    ensures { result ≡ stage_number s }
{
    match s {
        Stage::Fresh(role) => role.number(),
        Stage::Started => 2,
        Stage::Up(role, far) => 3 + join(role, u64::from(far)),
    }
}

// The word of a ping.
pub(crate) fn ping_number(p: Option<u16>) -> u64
    ensures { result ≡ ping_number p }
{
    p.map_or(0, |cookie| 1 + u64::from(cookie))
}
