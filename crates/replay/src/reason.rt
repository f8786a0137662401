// Why a line is a script error, for standard error.
use script_words::head;
use std::io;

// Whether each byte can be in a line: a space, or a visible character of ASCII.
fn is_plain(line: &[u8]) -> bool {
    line.iter().all(|b| matches!(*b, b' '..=b'~'))
}

// Whether a space is followed by a space.
fn has_two_spaces(line: &[u8]) -> bool {
    line.windows(2).any(|pair| matches!(pair, b"  "))
}

// Whether the line begins or ends with a space.
fn has_space_at_an_end(line: &[u8]) -> bool {
    matches!(line, [b' ', ..] | [.., b' '])
}

// The form of a line after the first, by its name.
fn form(name: &[u8]) -> &'static str {
    match name {
        b"start" => "expected start [ROOM], ROOM at most 66000",
        b"open" => "expected open ID, ID at most 255",
        b"put" => {
            "expected put ID BYTES, ID at most 255, BYTES lower-case hex of at most 1024 bytes or -"
        }
        b"finish" => "expected finish ID, ID at most 255",
        b"turn" => "expected turn [ROOM], ROOM at most 66000",
        b"grant" => {
            "expected grant ID AMOUNT [ROOM], ID at most 255, AMOUNT of at most 9 digits, ROOM at most 66000"
        }
        b"abort" => "expected abort ID whole|partial [ROOM], ID at most 255, ROOM at most 66000",
        b"close" => "expected close ID [ROOM], ID at most 255, ROOM at most 66000",
        b"ping" => "expected ping COOKIE [ROOM], COOKIE at most 65535, ROOM at most 66000",
        b"shutdown" => "expected shutdown [ROOM], ROOM at most 66000",
        b"lost" => "expected lost alone",
        b"receive" => {
            "expected receive BYTES [ROOM], BYTES lower-case hex of at most 66000 bytes or -, ROOM at most 66000"
        }
        b"state" => "expected state alone",
        b"queue" => "expected queue ID, ID at most 255",
        _ => "no call has this name",
    }
}

// Why a line is not a line of a script: the first line of a script makes the connection, the others are calls.
fn why(line: &[u8], first: bool) -> &'static str {
    if !is_plain(line) {
        "a byte that no word has"
    } else if has_two_spaces(line) {
        "two spaces"
    } else if has_space_at_an_end(line) {
        "a space at the start or at the end"
    } else if first {
        "expected client|server HEADER [queue LENGTH], HEADER at most 65535, LENGTH at most 70000"
    } else {
        form(head(line))
    }
}

// Prints the reason of a script error, with the number of its line.
pub(crate) fn tell(rt: &impl Eprint, line: &[u8], number: u64, first: bool) -> io::Result<()> {
    eprintln!(rt; "line {number}: {}", why(line, first))
}
