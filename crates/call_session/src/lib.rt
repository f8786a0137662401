// The calls on one session that use no queue: open, finish, grant, abort and close.
#![tactic(auto)]

mod silent;
mod stepping;
mod writing;

pub use silent::{finish, open_session};
pub use writing::{abort, close, grant};
