// A state just made.
ghost use Rattle.std.specs.Prelude.{◌≡◌};
ghost use Rattle.state.specs.New.{fresh};
ghost use Rattle.words.specs.State.{words_of};

use crate::write::stage_number;
use crate::{LAST_AT, OWN_AT, STAGE_AT, Words};
use state::{Setup, Stage};

// Makes the state of a connection on which nothing has happened; the words that were there do not matter.
pub fn make_state(state: &mut Words, setup: Setup)
    ensures { state.new ≡ words_of (fresh setup) }
{
    state.fill(0);
    state[STAGE_AT] = stage_number(Stage::Fresh(setup.role));
    state[OWN_AT] = u64::from(setup.header);
    state[LAST_AT] = 127;
}
