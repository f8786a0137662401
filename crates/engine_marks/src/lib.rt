// The marks of a room: a byte that stays where no call wrote.
#![tactic(auto)]

ghost use Rattle.std.specs.Prelude.{◌≡◌, length, drop, replicate};
ghost use Rattle.engine_marks.specs.Marks.{all_marks};

// Sets every byte to the mark.
pub fn fill(room: &mut [u8], mark: u8)
    ensures { room.new ≡ replicate (length room.old) mark }
{
    room.fill(mark);
}

// Whether every byte is the mark.
fn is_all(bytes: &[u8], mark: u8) -> bool
    ensures { result ≡ all_marks mark bytes.now }
{
    bytes.iter().all(|b| *b == mark)
}

// Whether every byte from a place on is the mark.
pub fn is_filled(room: &[u8], from: usize, mark: u8) -> bool
    ensures { result ≡ all_marks mark (drop from room.now) }
{
    match room.get(from..) {
        Some(rest) => is_all(rest, mark),
        None => true,
    }
}
