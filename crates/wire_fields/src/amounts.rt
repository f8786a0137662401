// How many bytes follow the header of a message, and how many an IncrementRation adds.
ghost use Rattle.std.specs.Prelude.{◌≡◌, ◌*◌, ◌%◌, ◌^◌, ◌≤◌};
ghost use Rattle.wire.specs.Message.{body_length, effective_increment};

use wire::Message;

// How many bytes follow the header of a message.
pub fn body_length(m: Message) -> u16
    ensures { result ≡ body_length m }
{
    match m {
        Message::NoOperation { length }
        | Message::Shutdown { length }
        | Message::Error { length }
        | Message::Abort { length, .. }
        | Message::Data { length, .. } => length,
        Message::Ping { .. }
        | Message::PingAck { .. }
        | Message::IncrementRation { .. }
        | Message::Acknowledgment { .. }
        | Message::Close { .. } => 0,
    }
}

// How many bytes an IncrementRation adds; only the low three bits of the shift count.
pub fn effective_increment(shift: u8, increment: u16) -> u32
    ensures { result ≡ effective_increment shift increment }
{
    (increment as u32) << (2 * (shift % 8))
}
