// The engine for a user: the types that a user names, and the twelve calls.
#![tactic(auto)]

pub use call_connection::{lost_line, ping, shutdown, start};
pub use call_put::put;
pub use call_receive::receive;
pub use call_session::{abort, close, finish, grant, open_session};
pub use call_slots::QUEUE_SIZE;
pub use call_turn::turn;
pub use ration::Ration;
pub use refusal::{Failure, Fault, Refusal, Violation};
pub use session::SLOT_SIZE;
pub use state::{Answer, Before, Called, Connection, Outcome, Session, Setup, Side, Sides, Stage};
pub use wire::{Message, Role};
