// States and numbers by the letters that the tables use; the head of the file stdin lists them.
use connection::with_session;
use engine::{
    Before, Connection, Outcome, QUEUE_SIZE, Ration, Role, SLOT_SIZE, Session, Side, Sides, Stage,
};

// The letter at a place, or a space past the end.
pub(crate) fn letter(s: &[u8], i: usize) -> u8 {
    s.get(i).copied().unwrap_or(b' ')
}

// The number that a letter represents, or 0 if it represents none.
pub(crate) fn number_of(letter: u8) -> u32 {
    match letter {
        b'1'..=b'9' => u32::from(letter - b'0'),
        b'a'..=b'f' => u32::from(letter - b'a') + 10,
        b'-' | b'o' | b'p' | b'T' => 127,
        b'l' | b'w' => 128,
        b'm' => 255,
        b'K' => 1024,
        b'F' => 65535,
        b'G' => 65536,
        b'H' => 2147483000,
        b'Y' => 2147483646,
        b'M' => 2147483647,
        b'X' => 2147483648,
        b'Z' => 4294967295,
        b'N' => 200,
        b'D' => 261,
        _ => size_of(letter),
    }
}

// The size that a letter represents, of a slot, the room of a turn or the queue, or 0 if it represents none.
fn size_of(letter: u8) -> u32 {
    let slot = SLOT_SIZE as u32;
    let queue = QUEUE_SIZE as u32;
    match letter {
        b'P' => slot - 4,
        b'Q' => slot - 3,
        b'R' => slot,
        b'S' => slot + 1,
        b'I' => slot + 3,
        b'J' => slot + 4,
        b'A' => queue - 1,
        b'B' => queue,
        b'C' => queue + 1,
        _ => 0,
    }
}

// The number of the letter at a place, which is less than 256.
pub(crate) fn small(s: &[u8], i: usize) -> u8 {
    (number_of(letter(s, i)) % 256) as u8
}

fn sides_of(letter: u8) -> Sides {
    match letter {
        b'i' => Sides::Opening(Before::Idle),
        b'j' => Sides::Opening(Before::Finished),
        b'k' => Sides::Opening(Before::Ended),
        b'1' => Sides::Live(Side::Open, Side::Open),
        b'2' => Sides::Live(Side::Open, Side::Finished),
        b'3' => Sides::Live(Side::Open, Side::Ended),
        b'4' => Sides::Live(Side::Finished, Side::Open),
        b'5' => Sides::Live(Side::Finished, Side::Finished),
        b'6' => Sides::Live(Side::Finished, Side::Ended),
        b'7' => Sides::Live(Side::Ended, Side::Open),
        b'8' => Sides::Live(Side::Ended, Side::Finished),
        b'9' => Sides::Live(Side::Ended, Side::Ended),
        _ => Sides::Idle,
    }
}

fn ration_of(letter: u8) -> Ration {
    match letter {
        b'e' => Ration::Endless,
        _ => Ration::Finite(number_of(letter)),
    }
}

fn stage_of(role: Role, letter: u8) -> Stage {
    match letter {
        b'f' => Stage::Fresh(role),
        b't' => Stage::Started,
        b'v' => Stage::Up(role, 1),
        _ => Stage::Up(role, 4),
    }
}

fn session_of(code: &[u8]) -> Session {
    Session {
        sides: sides_of(letter(code, 3)),
        outbound: ration_of(letter(code, 4)),
        inbound: ration_of(letter(code, 5)),
        waiting: (number_of(letter(code, 6)) % 65536) as u16,
        finish: letter(code, 7) == b'f',
        outcome: Outcome::Running,
    }
}

// An end whose header number is also the far end's.
pub(crate) fn state_of(role: Role, code: &[u8]) -> Connection {
    let stage = letter(code, 1);
    let mark = letter(code, 2);
    let c = Connection {
        sessions: [Session::BLANK; 128],
        stage: stage_of(role, stage),
        over: matches!(mark, b'o' | b'w'),
        own: if stage == b'v' { 1 } else { 4 },
        last: small(code, 2),
        ping: (mark == b'p').then_some(7),
    };
    with_session(c, small(code, 8), session_of(code))
}
