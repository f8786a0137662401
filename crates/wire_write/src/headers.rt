// The four header bytes of a message.
ghost use Rattle.std.specs.Prelude.{◌≡◌, ◌≤◌};
ghost use Rattle.wire.specs.Message.{weight as message_weight, first_byte, header};

use wire::Message;
use wire_fields::{number_of, second_byte};

// The weight of a flag's bit, or 0.
fn weight(w: u8, set: bool) -> u8
    ensures { (result ≡ message_weight w set) × (result ≤ w) }
{
    if set { w } else { 0 }
}

// The first byte of a message; only the low three bits of a shift count.
fn first_byte(m: Message) -> u8
    ensures { result ≡ first_byte m }
{
    match m {
        Message::NoOperation { .. } => 0x00,
        Message::Shutdown { .. } => 0x02,
        Message::Ping { .. } => 0x04,
        Message::PingAck { .. } => 0x06,
        Message::Error { .. } => 0x08,
        Message::IncrementRation { shift, .. } => 0x10 + shift % 8 * 2,
        Message::Abort { partial, .. } => 0x20 + weight(2, partial),
        Message::Close { .. } => 0x30,
        Message::Acknowledgment { .. } => 0x40,
        Message::Data {
            open,
            close,
            eof,
            ack_required,
            ..
        } => {
            0x80 + weight(16, open) + weight(8, close) + weight(4, eof) + weight(2, ack_required)
        }
    }
}

// The four header bytes of a message.
pub fn header_of(m: Message) -> [u8; 4]
    ensures { result ≡ header m }
{
    let [high, low] = number_of(m).to_be_bytes();
    [first_byte(m), second_byte(m), high, low]
}
