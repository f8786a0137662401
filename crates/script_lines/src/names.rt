// What the lines of a script name: calls, and looks at the state and the queue.
ghost use Rattle.std.specs.Prelude.{◌≡◌};
ghost use Rattle.script_lines.specs.Names.{name_of, word_of as names_word_of};

use crate::Name;
use script_words::is;

const NAMES: [Name; 14] = [
    Name::Start,
    Name::Open,
    Name::Put,
    Name::Finish,
    Name::Turn,
    Name::Grant,
    Name::Abort,
    Name::Close,
    Name::Ping,
    Name::Shutdown,
    Name::Lost,
    Name::Receive,
    Name::State,
    Name::Queue,
];

// The word of a name.
fn word_of(name: Name) -> &'static [u8]
    ensures { result.now ≡ names_word_of name }
{
    match name {
        Name::Start => b"start",
        Name::Open => b"open",
        Name::Put => b"put",
        Name::Finish => b"finish",
        Name::Turn => b"turn",
        Name::Grant => b"grant",
        Name::Abort => b"abort",
        Name::Close => b"close",
        Name::Ping => b"ping",
        Name::Shutdown => b"shutdown",
        Name::Lost => b"lost",
        Name::Receive => b"receive",
        Name::State => b"state",
        Name::Queue => b"queue",
    }
}

// What a word names.
#[tactic(auto, unfolding(crate::specs::Names::name_of))]
pub(crate) fn name_of(w: &[u8]) -> Option<Name>
    ensures { result ≡ name_of w.now }
{
    NAMES.iter().copied().find(|name| is(w, word_of(*name)))
}
