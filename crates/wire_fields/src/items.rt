// The items of a message: its type, its shift, its second byte and the number behind it.
ghost use Rattle.std.specs.Prelude.{◌≡◌};
ghost use Rattle.wire.specs.Message.{second_byte, number_of, shift_of, kind_of_message};

use wire::{Kind, Message};

// The session number, or 0.
pub fn second_byte(m: Message) -> u8
    ensures { result ≡ second_byte m }
{
    match m {
        Message::IncrementRation { session, .. }
        | Message::Abort { session, .. }
        | Message::Acknowledgment { session }
        | Message::Data { session, .. }
        | Message::Close { session } => session,
        Message::NoOperation { .. }
        | Message::Shutdown { .. }
        | Message::Ping { .. }
        | Message::PingAck { .. }
        | Message::Error { .. } => 0,
    }
}

// The number in bytes 2 and 3.
pub fn number_of(m: Message) -> u16
    ensures { result ≡ number_of m }
{
    match m {
        Message::NoOperation { length }
        | Message::Shutdown { length }
        | Message::Error { length }
        | Message::Abort { length, .. }
        | Message::Data { length, .. } => length,
        Message::PingAck { cookie } | Message::Ping { cookie } => cookie,
        Message::IncrementRation { increment, .. } => increment,
        Message::Close { .. } | Message::Acknowledgment { .. } => 0,
    }
}

// The shift of an IncrementRation, or 0 for any other message.
pub fn shift_of(m: Message) -> u8
    ensures { result ≡ shift_of m }
{
    match m {
        Message::IncrementRation { shift, .. } => shift,
        _ => 0,
    }
}

// The type of a message.
pub fn kind_of_message(m: Message) -> Kind
    ensures { result ≡ kind_of_message m }
{
    match m {
        Message::NoOperation { .. } => Kind::NoOperation,
        Message::Shutdown { .. } => Kind::Shutdown,
        Message::Ping { .. } => Kind::Ping,
        Message::PingAck { .. } => Kind::PingAck,
        Message::Error { .. } => Kind::Error,
        Message::IncrementRation { .. } => Kind::IncrementRation,
        Message::Abort { .. } => Kind::Abort,
        Message::Close { .. } => Kind::Close,
        Message::Acknowledgment { .. } => Kind::Acknowledgment,
        Message::Data { .. } => Kind::Data,
    }
}
