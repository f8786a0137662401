// The bytes of a connection header.
ghost use Rattle.std.specs.Prelude.{◌≡◌};
ghost use Rattle.wire.specs.Connection.{write_connection_header};
ghost use Rattle.wire_connection_header.specs.Answer.{written_as};

use refusal::Refusal;

// Writes the connection header with a header number.
pub fn write_connection_header(number: u16, room: &mut [u8]) -> Result<usize, Refusal>
    ensures { (written_as result, room.new) ≡ write_connection_header number room.old }
{
    if room.len() < 8 {
        return Err(Refusal::WrongRoom);
    }
    let [high, low] = number.to_be_bytes();
    room[..8].copy_from_slice(&[b'J', b'm', b'u', b'x', 0x01, high, low, 0x00]);
    Ok(8)
}
