// The end of a connection: the outcome of each session changes in its status, and the connection is over.
ghost use Rattle.std.specs.Prelude.{◌≡◌, map};
ghost use Rattle.connection.specs.Cause.{cause_as};
ghost use Rattle.words_access.specs.Access.{ended_status, ended_words};

use crate::kinds::{join, split};
use crate::read::status_session;
use crate::{OVER_AT, STAGE_AT, STATUS_AT, Words};
use connection::{Cause, ended_session};
use state::Outcome;

// The status of a session when the connection ends: the same phase, with the outcome that the cause leaves.
fn ended_status(cause: Cause, status: u64) -> u64
    ensures { result ≡ ended_status (cause_as cause) status }
{
    let (_, phase) = split::<Outcome>(status);
    let ended = ended_session(cause, status_session(status));
    join(ended.outcome, phase)
}

fn end_statuses(statuses: &mut [u64], cause: Cause)
    ensures { statuses.new ≡ map (ended_status (cause_as cause)) statuses.old }
{
    for status in statuses.iter_mut() {
        *status = ended_status(cause, *status);
    }
}

// Ends the connection by a cause.
pub fn end_state(state: &mut Words, cause: Cause)
    ensures { state.new ≡ ended_words (cause_as cause) state.old }
{
    end_statuses(&mut state[STATUS_AT..STAGE_AT], cause);
    state[OVER_AT] = 1;
}
