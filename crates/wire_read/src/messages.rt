// What bytes say: the four header bytes of a message, and the message at the front of an input.
ghost use Rattle.std.specs.Prelude.{◌≡◌, ◌∷◌, []};
ghost use Rattle.laws.specs.Result.{ok};
ghost use Rattle.wire.specs.Message.{parse_header, read_message, with_body};
ghost use Rattle.wire_read.specs.Answer.{parsed_as, read_as, sized_as, with_size};

use crate::headers::Header;
use crate::{Parsed, Sized};
use refusal::{Fault, ReadError};
use wire::{Message, Role};

// What the four header bytes of a message from a sender say.
pub fn parse_header(
    from: Role,
    first: u8,
    second: u8,
    third: u8,
    fourth: u8,
) -> Result<Message, Fault>
    ensures { parsed_as result ≡ parse_header from (first ∷ second ∷ third ∷ fourth ∷ []) }
{
    let header = Header {
        first,
        second,
        third,
        fourth,
    };
    let parsed = header.parse(from)?;
    Ok(parsed.message)
}

// A message with its size, if so many bytes are there from its first one on.
fn complete(have: usize, parsed: Parsed) -> Result<Sized, ReadError>
    ensures { sized_as result ≡ with_size (with_body have (ok parsed.message)) }
{
    let size = 4 + parsed.body as usize;
    if size <= have {
        Ok(Sized {
            message: parsed.message,
            size,
        })
    } else {
        Err(ReadError::Incomplete)
    }
}

// The message from a sender at the front of the input, and how many bytes it has.
pub fn read_sized(from: Role, input: &[u8]) -> Result<Sized, ReadError>
    ensures { sized_as result ≡ with_size (read_message from input.now) }
{
    let Some([first, second, third, fourth]) = input.first_chunk::<4>() else {
        return Err(ReadError::Incomplete);
    };
    let header = Header {
        first: *first,
        second: *second,
        third: *third,
        fourth: *fourth,
    };
    let parsed = header.parse(from)?;
    complete(input.len(), parsed)
}

// The message from a sender at the front of the input.
pub fn read_message(from: Role, input: &[u8]) -> Result<Message, ReadError>
    ensures { read_as result ≡ read_message from input.now }
{
    let sized = read_sized(from, input)?;
    Ok(sized.message)
}
