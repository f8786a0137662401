// What the bytes of a connection header say.
ghost use Rattle.std.specs.Prelude.{◌≡◌, ℕ, true, false, MatchOption, length};
ghost use Rattle.wire.specs.Connection.{connection_layout, parse_connection_header, read_connection_header};
ghost use Rattle.wire.specs.Layout.{fixed, first_wrong};
ghost use Rattle.wire_connection_header.specs.Answer.{header_parsed_as, header_read_as};

use refusal::{Fault, ReadError, Violation};

// The place of the first byte that is not as a header has it.
fn wrong_place(bytes: &[u8]) -> Option<u16>
    requires { length bytes.now ≡ 8 }
    ensures { MatchOption result (fixed connection_layout bytes.now ≡ true) (λ place. (fixed connection_layout bytes.now ≡ false) × (place ≡ first_wrong connection_layout bytes.now)) }
{
    match bytes {
        [b'J', b'm', b'u', b'x', 0x01, _, _, 0x00] => None,
        [b'J', b'm', b'u', b'x', 0x01, ..] => Some(7),
        [b'J', b'm', b'u', b'x', ..] => Some(4),
        [b'J', b'm', b'u', ..] => Some(3),
        [b'J', b'm', ..] => Some(2),
        [b'J', ..] => Some(1),
        _ => Some(0),
    }
}

// What the eight bytes of a connection header say.
pub fn parse_connection_header(bytes: [u8; 8]) -> Result<u16, Fault>
    ensures { header_parsed_as result ≡ parse_connection_header bytes }
{
    if let Some(offset) = wrong_place(&bytes) {
        return Err(Fault {
            violation: Violation::BadHeader,
            offset,
        });
    }
    let high = bytes[5];
    let low = bytes[6];
    Ok(u16::from_be_bytes([high, low]))
}

// The connection header at the front of the input.
pub fn read_connection_header(input: &[u8]) -> Result<u16, ReadError>
    ensures { header_read_as result ≡ read_connection_header input.now }
{
    let Some(bytes) = input.first_chunk::<8>() else {
        return Err(ReadError::Incomplete);
    };
    Ok(parse_connection_header(*bytes)?)
}
