// Plays a script of calls on one region, and writes what each call answers.
//
// The script is on standard input, and the lines go to standard output; the reason of a script error goes to standard error. It is
// tested on a start, a store that is cut and a repair, against lines that are made by hand from the rules; scripts/journal/ has more.
#![tactic(auto)]

mod play;
mod reason;

use play::{Play, Stop};
use std::alloc::Global;
use std::env::FillError;
use std::io;
use std::io::{BufRead, BufReader, Read};
use std::rt::Env;

const USAGE: &str = "usage: journal_play < SCRIPT (docs/JOURNAL.md describes scripts)";

// How many bytes of a line are read: the longest right line that is not skipped, a store with its number of byte stores, has 17.
const LONGEST: u64 = 4096;

// Plays the lines of a script up to its end or to a line that the format does not have.
fn play_all(
    rt: &(impl Print + Eprint),
    alloc: Global,
    script: &mut impl BufRead,
) -> io::Result<()> {
    let mut region = [0u8; 70000];
    let mut play = Play::new();
    let mut line = Vec::new(alloc);
    for number in 1..=u64::MAX {
        line.clear();
        if script.by_ref().take(LONGEST).read_until(b'\n', &mut line)? == 0 {
            break;
        }
        let text = line.strip_suffix(b"\n").unwrap_or(&line);
        match play.line(rt, text, &mut region) {
            Ok(()) => {}
            Err(Stop::Failed(error)) => return Err(error),
            Err(Stop::Wrong) => {
                println!(rt; "script error at line {number}")?;
                return reason::tell(rt, text, number, play.is_new());
            }
        }
        if !line.ends_with(b"\n") {
            script.skip_until(b'\n')?;
        }
    }
    Ok(())
}

// Prints the usage line: on standard output for `--help`, on standard error for any other argument.
fn usage(rt: &(impl Print + Eprint), word: &[u8]) -> io::Result<()> {
    if matches!(word, b"--help") {
        rt.println(USAGE)
    } else {
        rt.eprintln(USAGE)
    }
}

// The first seven bytes of an argument are enough to tell whether it is `--help`.
fn main(rt: HostRuntime) -> io::Result<()> {
    let mut word = [0u8; 7];
    match rt.arg(1, &mut word) {
        Ok(n) => usage(&rt, &word[..n]),
        Err(FillError::TooLong) => usage(&rt, b""),
        Err(FillError::NotPresent) => {
            let alloc = rt.alloc();
            // Nothing is read again once the input has ended, though a terminal or a growing file may have more by then.
            let stdin = rt.stdin().chain(io::empty());
            play_all(&rt, alloc, &mut BufReader::new(alloc, stdin)?)
        }
    }
}
