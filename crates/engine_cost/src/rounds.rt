// The loops: each goes round eight open sessions with endless rations. Queue and room are lent, as by any caller.
use connection::with_session;
use connection_check::well_formed;
use engine::{
    Called, Connection, Outcome, QUEUE_SIZE, Ration, Role, SLOT_SIZE, Session, Setup, Side, Sides,
    Stage,
};

const ROUNDS: u64 = 100000;

// The room that turn needs; no other call needs more.
pub(crate) const ROOM_SIZE: usize = 4 + (SLOT_SIZE as usize);

// The connection after a round, and how many calls were taken so far.
#[derive(Drop)]
struct Round {
    connection: Connection,
    taken: u64,
}

fn session(waiting: u16) -> Session {
    Session {
        sides: Sides::Live(Side::Open, Side::Open),
        outbound: Ration::Endless,
        inbound: Ration::Endless,
        waiting,
        finish: false,
        outcome: Outcome::Running,
    }
}

// A client with the sessions 0 to 7 open, and the same number of bytes waiting for each.
fn begun(waiting: u16) -> Round {
    let setup = Setup {
        role: Role::Client,
        header: 0,
    };
    let mut connection = Connection::new(setup).with_stage(Stage::Up(Role::Client, 0));
    for n in 0..8 {
        connection = with_session(connection, n, session(waiting));
    }
    Round {
        connection,
        taken: 0,
    }
}

// The round after a call, with the session set back to what it was before the call.
fn after(called: Called, taken: u64, n: u8, waiting: u16) -> Round {
    Round {
        connection: with_session(called.connection, n, session(waiting)),
        taken: taken.wrapping_add(u64::from(called.answer.is_ok())),
    }
}

// Goes round the eight sessions, and tells how many calls were taken. The round is lent, so that its state isn't copied for it.
fn go_round<F: FnMut(&mut Round, u8)>(waiting: u16, mut round: F) -> u64
    requires { F.IsAlwaysCallable round }
{
    let mut r = begun(waiting);
    for i in 0..ROUNDS {
        round(&mut r, (i % 8) as u8);
    }
    r.taken
}

// Sets a session in each round, as the other loops do in addition to their call.
pub(crate) fn tables() -> u64 {
    go_round(0, |r, n| {
        r.connection = with_session(r.connection, n, session(16));
        r.taken = r.taken.wrapping_add(1);
    })
}

pub(crate) fn checks() -> u64 {
    go_round(0, |r, n| {
        r.connection = with_session(r.connection, n, session(16));
        r.taken = r.taken.wrapping_add(u64::from(well_formed(r.connection)));
    })
}

// Each turn sends the 16 bytes of the session whose turn it is, and they wait again for the next time.
pub(crate) fn turns(queue: &mut [u8; QUEUE_SIZE], room: &mut [u8; ROOM_SIZE]) -> u64 {
    go_round(16, |r, n| {
        let called = engine::turn(r.connection, queue, room);
        *r = after(called, r.taken, n, 16);
    })
}

// Each put of 16 bytes finds the slot empty.
pub(crate) fn puts(queue: &mut [u8; QUEUE_SIZE]) -> u64 {
    go_round(0, |r, n| {
        let called = engine::put(r.connection, n, b"0123456789abcdef", queue);
        *r = after(called, r.taken, n, 0);
    })
}

// Each receipt is a Data message of 16 bytes.
pub(crate) fn receipts(room: &mut [u8; ROOM_SIZE]) -> u64 {
    go_round(0, |r, n| {
        let called = engine::receive(r.connection, b"\x80\x05\x00\x100123456789abcdef", room);
        *r = after(called, r.taken, n, 0);
    })
}
