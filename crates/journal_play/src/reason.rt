// Why a line is a script error, for standard error.
use script_words::head;
use std::io;

// The form of a line that begins with this name.
fn form(name: &[u8]) -> &'static str {
    match name {
        b"store" => "expected store ID KIND [STORES], ID and KIND at most 255, STORES at most 999",
        b"repair" => "expected repair [STORES], STORES at most 999",
        b"read" => "expected read alone",
        b"list" => "expected list alone",
        b"damage" => "expected damage PLACE BYTE, PLACE below LENGTH, BYTE at most 255",
        b"block" => "expected block N, N of at most 9 digits",
        _ => "no call has this name",
    }
}

// Prints the reason of a script error, with the number of its line: the first line of a script names the region.
pub(crate) fn tell(rt: &impl Eprint, line: &[u8], number: u64, first: bool) -> io::Result<()> {
    let why = if first {
        "expected region LENGTH, LENGTH at most 70000"
    } else {
        form(head(line))
    };
    eprintln!(rt; "line {number}: {why}")
}
