// The ready flags: one for each session number.
ghost use Rattle.std.specs.Prelude.{◌≡◌, map};
ghost use Rattle.call_turn.specs.Ready.{flag_of};

use session_send::ready;
use state::Session;

fn flag_of(x: Session) -> u8
    ensures { result ≡ flag_of x }
{
    u8::from(ready(x))
}

// For each number whether its session is ready.
pub(crate) fn ready_flags(table: [Session; 128]) -> [u8; 128]
    ensures { result ≡ map flag_of table }
{
    let mut flags = [0u8; 128];
    for i in 0..128 {
        flags[i] = flag_of(table[i]);
    }
    flags
}
