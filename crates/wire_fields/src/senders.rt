// Which messages a sender may send: its types, and the flags that it may set.
ghost use Rattle.std.specs.Prelude.{◌≡◌};
ghost use Rattle.wire.specs.Message.{is_server, may_send, only_if, data_flags, flags_allowed};

use crate::roles::{is_client, is_server};
use wire::{Kind, Message, Role};

// Whether a sender may send messages of a type.
pub fn may_send(from: Role, kind: Kind) -> bool
    ensures { result ≡ may_send from kind }
{
    match kind {
        Kind::Shutdown | Kind::Close => is_server(from),
        Kind::Acknowledgment => is_client(from),
        Kind::NoOperation
        | Kind::PingAck
        | Kind::Error
        | Kind::IncrementRation
        | Kind::Abort
        | Kind::Data
        | Kind::Ping => true,
    }
}

// Whether a sender may set these flags of Data.
pub fn data_flags(from: Role, opens: bool, close: bool, eof: bool, ack: bool) -> bool
    ensures { result ≡ data_flags from opens close eof ack }
{
    match from {
        Role::Client => !(close || ack),
        Role::Server => !opens && (eof || !(close || ack)),
    }
}

// Whether a sender may set this flag of an Abort.
pub fn abort_flags(from: Role, partial: bool) -> bool
    ensures { result ≡ only_if partial (is_server from) }
{
    !partial || is_server(from)
}

// Whether a sender may set the flags that a message has.
pub fn flags_allowed(from: Role, m: Message) -> bool
    ensures { result ≡ flags_allowed from m }
{
    match m {
        Message::Abort { partial, .. } => abort_flags(from, partial),
        Message::Data {
            open,
            close,
            eof,
            ack_required,
            ..
        } => data_flags(from, open, close, eof, ack_required),
        _ => true,
    }
}
