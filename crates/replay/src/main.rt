// Plays a script of calls on one connection, and writes what each call answers.
//
// The script is on standard input, and the lines go to standard output; the reason of a script error goes to standard error. It is
// tested on two sessions of a client, against lines that are made by hand from the rules; scripts/ has more.
#![tactic(auto)]

mod play;
mod reason;
mod show;

use play::{Play, Stop};
use std::alloc::Global;
use std::env::FillError;
use std::io;
use std::io::{BufRead, BufReader, Read};
use std::rt::Env;

const USAGE: &str = "usage: replay < SCRIPT (docs/SCRIPTS.md describes scripts)";

// How many bytes of a line are read: the longest right line, a receive of 66,000 bytes with its room, has 132,014.
const LONGEST: u64 = 262144;

// Plays a line: it may be skipped, make the connection or ask something of it.
fn play_line(
    rt: &impl Print,
    alloc: Global,
    play: &mut Option<Play>,
    line: &[u8],
) -> Result<(), Stop> {
    if script_words::is_skipped(line) {
        return Ok(());
    }
    match play {
        Some(play) => play.line(rt, line),
        None => {
            *play = Some(Play::begin(alloc, line)?);
            Ok(())
        }
    }
}

// Plays the lines of a script up to its end or to a line that the format does not have.
fn play_all(
    rt: &(impl Print + Eprint),
    alloc: Global,
    script: &mut impl BufRead,
) -> io::Result<()> {
    let mut play = None;
    let mut line = Vec::new(alloc);
    for number in 1..=u64::MAX {
        line.clear();
        if script.by_ref().take(LONGEST).read_until(b'\n', &mut line)? == 0 {
            break;
        }
        let text = line.strip_suffix(b"\n").unwrap_or(&line);
        match play_line(rt, alloc, &mut play, text) {
            Ok(()) => {}
            Err(Stop::Failed(error)) => return Err(error),
            Err(Stop::Wrong) => {
                show::script_error(rt, number)?;
                return reason::tell(rt, text, number, play.is_none());
            }
        }
        if !line.ends_with(b"\n") {
            script.skip_until(b'\n')?;
        }
    }
    Ok(())
}

// Prints the usage line: on standard output for `--help`, on standard error for any other argument.
fn usage(rt: &(impl Print + Eprint), word: &[u8]) -> io::Result<()> {
    if matches!(word, b"--help") {
        rt.println(USAGE)
    } else {
        rt.eprintln(USAGE)
    }
}

// The first seven bytes of an argument are enough to tell whether it is `--help`.
fn main(rt: HostRuntime) -> io::Result<()> {
    let mut word = [0u8; 7];
    match rt.arg(1, &mut word) {
        Ok(n) => usage(&rt, &word[..n]),
        Err(FillError::TooLong) => usage(&rt, b""),
        Err(FillError::NotPresent) => {
            let alloc = rt.alloc();
            // Nothing is read again once the input has ended, though a terminal or a growing file may have more by then.
            let stdin = rt.stdin().chain(io::empty());
            play_all(&rt, alloc, &mut BufReader::new(alloc, stdin)?)
        }
    }
}
