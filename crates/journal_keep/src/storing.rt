// The store of what is due for one session number.
ghost use Rattle.std.specs.Prelude.{◌≡◌, ◌<◌};
ghost use Rattle.journal_history.specs.Due.{entry_due};
ghost use Rattle.journal_history.specs.Keep.{keep_due};
ghost use Rattle.journal_keep.specs.Answers.{Follows, due_as, left_with, restarted, work_as};

use crate::fates::Due;
use crate::{Starts, Stopped, Work};
use journal_store::{Written, store_some};
use refusal::Refusal;

// The work with another value for the number's start.
fn with_start(work: Work, number: u8, value: bool) -> Work
    requires { number < 128 }
    ensures { result ≡ restarted number value work }
{
    let mut next = work;
    next.starts.stored[number as usize] = value;
    next
}

// The work with as many byte stores left, and what has stopped it.
fn stopped(work: Work, left: usize, stopped: Option<Stopped>) -> Work
    ensures { result ≡ left_with left stopped work }
{
    Work {
        starts: Starts {
            stopped,
            ..work.starts
        },
        left,
    }
}

// The work after a store of an entry for the number.
fn after_store(work: Work, number: u8, kind: u8, answer: Result<Written, Refusal>) -> Work
    requires { number < 128 }
    ensures { Follows work number kind answer result }
{
    match answer {
        Ok(Written::Whole(_)) => {
            let left = work.left.saturating_sub(512);
            stopped(with_start(work, number, kind == 0), left, None)
        }
        Ok(Written::Cut(_)) => stopped(with_start(work, number, kind != 0), 0, Some(Stopped::Cut)),
        Err(refusal) => stopped(
            with_start(work, number, kind != 0),
            work.left,
            Some(Stopped::Refused(refusal)),
        ),
    }
}

// Stores an entry for the number, unless something has stopped the keep.
fn store_due(region: &mut [u8], work: Work, number: u8, kind: u8) -> Work
    requires { number < 128 }
    ensures { work_as result region.new ≡ keep_due number (entry_due kind) (work_as work region.old) }
{
    if work.starts.stopped.is_some() {
        return with_start(work, number, kind != 0);
    }
    let answer = store_some(region, number, kind, work.left);
    after_store(work, number, kind, answer)
}

// Stores what is due for the number.
pub(crate) fn keep_due(region: &mut [u8], work: Work, number: u8, due: Option<Due>) -> Work
    requires { number < 128 }
    ensures { work_as result region.new ≡ keep_due number (due_as due) (work_as work region.old) }
{
    match due {
        None => work,
        Some(Due::NewSession) => with_start(work, number, false),
        Some(Due::Entry(kind)) => store_due(region, work, number, kind),
    }
}
