// The items of a message, a word each.
ghost use Rattle.std.specs.Prelude.{◌≡◌, ◌∷◌, [], ◌≤◌, ◌<◌};
ghost use Rattle.wire.specs.Message.{weight};
ghost use Rattle.capture_export.specs.Words.{message_words, data_flags_of};
ghost use Rattle.capture_export.specs.Answers.{item_words, Small};

use crate::Items;
use wire::Message;

fn flag(set: bool, worth: u64) -> u64
    ensures { (result ≡ weight worth set) × (result ≤ worth) }
{
    if set { worth } else { 0 }
}

// The items of a message that pertains to the connection as a whole.
fn of_connection(kind: u64, value: u16) -> Items
    requires { kind < 16 }
    ensures { (item_words result ≡ kind ∷ 0 ∷ 0 ∷ value ∷ []) × Small result }
{
    Items {
        kind,
        flags: 0,
        session: 0,
        value: value as u64,
    }
}

// The items of a message of a session.
fn of_session(kind: u64, flags: u64, session: u8, value: u16) -> Items
    requires { (kind < 16) × (flags < 256) }
    ensures { (item_words result ≡ kind ∷ flags ∷ session ∷ value ∷ []) × Small result }
{
    Items {
        kind,
        flags,
        session: session as u64,
        value: value as u64,
    }
}

// The four flags of Data in one number.
fn data_flags_of(opens: bool, close: bool, eof: bool, ack: bool) -> u64
    ensures { (result ≡ data_flags_of opens close eof ack) × (result < 16) }
{
    flag(opens, 1) + flag(close, 2) + flag(eof, 4) + flag(ack, 8)
}

pub fn items_of(m: Message) -> Items
    ensures { (item_words result ≡ message_words m) × Small result }
{
    match m {
        Message::NoOperation { length } => of_connection(1, length),
        Message::Shutdown { length } => of_connection(2, length),
        Message::Ping { cookie } => of_connection(3, cookie),
        Message::PingAck { cookie } => of_connection(4, cookie),
        Message::Error { length } => of_connection(5, length),
        Message::IncrementRation {
            shift,
            session,
            increment,
        } => of_session(6, shift as u64, session, increment),
        Message::Abort {
            partial,
            session,
            length,
        } => of_session(7, flag(partial, 1), session, length),
        Message::Close { session } => of_session(8, 0, session, 0),
        Message::Acknowledgment { session } => of_session(9, 0, session, 0),
        Message::Data {
            open,
            close,
            eof,
            ack_required,
            session,
            length,
        } => of_session(
            10,
            data_flags_of(open, close, eof, ack_required),
            session,
            length,
        ),
    }
}
