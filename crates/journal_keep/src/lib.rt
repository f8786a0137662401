// What a program stores in the journal after each call of the engine, before it sends what the call wrote.
#![tactic(auto)]

mod fates;
mod storing;

ghost use Rattle.std.specs.Prelude.{◌≡◌, false, replicate};
ghost use Rattle.protocol.specs.Result.{answer_as};
ghost use Rattle.journal_history.specs.Keep.{all_stored, keep_all, keep_numbers, seen_of};
ghost use Rattle.journal_keep.specs.Answers.{ending_as, work_as};

use crate::fates::{due_for, has_open, is_served};
use crate::storing::keep_due;
use refusal::{Failure, Refusal};
use state::{Answer, Connection, Session};

// What stops a keep before all that is due is stored: power is cut, or a store is refused. What stops one stops all later ones on the
// connection.
#[derive(Clone, Copy, Debug, PartialEq, Eq)]
pub enum Stopped {
    Cut,
    Refused(Refusal),
}

// What a program holds between keeps: for each session number whether the start of its session is stored and its fate is not, and what has
// stopped the last keep. A program calls a keep after each call of the engine,
// and sends what the call wrote only if nothing has stopped; else it sends nothing more, and the line is lost. A region serves one
// connection at a time.
#[derive(Clone, Copy)]
pub struct Starts {
    pub stored: [bool; 128],
    pub stopped: Option<Stopped>,
}

impl Starts {
    // No start is stored, and nothing has stopped: what a program begins with, and again with each new connection.
    pub fn new() -> Starts
        ensures { (ending_as result.stopped ≡ all_stored) × (result.stored ≡ replicate 128 false) }
    {
        Starts {
            stored: [false; 128],
            stopped: None,
        }
    }
}

// The work of a keep: what the program holds, and how many byte stores are left before power is cut.
#[derive(Clone, Copy)]
pub(crate) struct Work {
    pub starts: Starts,
    pub left: usize,
}

// Stores what is due for each number of the table after a call that gave this answer and wrote these bytes.
fn keep_table(
    region: &mut [u8],
    mut work: Work,
    table: [Session; 128],
    answer: Result<Answer, Failure>,
    written: &[u8],
) -> Work
    ensures { work_as result region.new
        ≡ keep_numbers table (answer_as answer) written.now 128 0 (work_as work region.old) }
{
    let open = has_open(written);
    for n in 0..128u8 {
        let served = is_served(n, answer);
        let stored = work.starts.stored[n as usize];
        let due = due_for(served & open, stored, table[n as usize]);
        work = keep_due(region, work, n, due);
    }
    work
}

// Stores what is due after a call of the engine, which left this connection, gave this answer and wrote these bytes, and stops after
// this many byte stores: `keep` with a power cut.
pub fn keep_some(
    region: &mut [u8],
    starts: Starts,
    connection: Connection,
    answer: Result<Answer, Failure>,
    written: &[u8],
    stores: usize,
) -> Starts
    ensures { (ending_as result.stopped, result.stored, region.new)
        ≡ seen_of (keep_all connection (answer_as answer) written.now region.old starts.stored (ending_as starts.stopped) stores) }
{
    let work = Work {
        starts,
        left: stores,
    };
    keep_table(region, work, connection.sessions, answer, written).starts
}

// Stores what is due after a call of the engine, which left this connection, gave this answer and wrote these bytes, before they are sent.
pub fn keep(
    region: &mut [u8],
    starts: Starts,
    connection: Connection,
    answer: Result<Answer, Failure>,
    written: &[u8],
) -> Starts
    ensures { (ending_as result.stopped, result.stored, region.new)
        ≡ seen_of (keep_all connection (answer_as answer) written.now region.old starts.stored (ending_as starts.stopped) 65536) }
{
    keep_some(region, starts, connection, answer, written, 65536)
}
