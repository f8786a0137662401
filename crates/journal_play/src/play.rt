// The lines of a script, played on a region.
use journal_lines::{Asked, Change, WrongLine};
use journal_text::{ListText, ReadText, RepairText, StoreText};
use std::io;

// Why a line stops the run.
#[derive(Drop)]
pub(crate) enum Stop {
    // The format has no such line.
    Wrong,
    Failed(io::Error),
}

impl From<WrongLine> for Stop {
    fn from(_line: WrongLine) -> Stop {
        Stop::Wrong
    }
}

impl From<io::Error> for Stop {
    fn from(error: io::Error) -> Stop {
        Stop::Failed(error)
    }
}

// The length of the region, once the script has named it.
#[derive(Drop)]
pub(crate) struct Play {
    length: Option<usize>,
}

impl Play {
    // The state before the first line.
    pub(crate) fn new() -> Play {
        Play { length: None }
    }

    // Whether the script has not named the region yet.
    pub(crate) fn is_new(&self) -> bool {
        self.length.is_none()
    }

    // Plays a line: it may be skipped, name the region or ask for something.
    pub(crate) fn line(
        &mut self,
        rt: &impl Print,
        line: &[u8],
        region: &mut [u8],
    ) -> Result<(), Stop> {
        let Some(length) = self.length else {
            self.length = journal_lines::first_line(line)?;
            return Ok(());
        };
        let Some(region) = region.get_mut(..length) else {
            return Err(Stop::Wrong);
        };
        if let Some(asked) = journal_lines::later_line(line, region.len())? {
            answer(rt, asked, region)?;
        }
        Ok(())
    }
}

// Makes a call that changes the region.
fn change(
    rt: &impl Print,
    region: &mut [u8],
    asked: Change,
    stores: Option<usize>,
) -> io::Result<()> {
    match (asked, stores) {
        (Change::Store(number, kind), None) => {
            rt.println(StoreText(journal_store::store(region, number, kind)))
        }
        (Change::Store(number, kind), Some(stores)) => rt.println(StoreText(
            journal_store::store_some(region, number, kind, stores),
        )),
        (Change::Repair, None) => rt.println(RepairText(journal_store::repair(region))),
        (Change::Repair, Some(stores)) => {
            rt.println(RepairText(journal_store::repair_some(region, stores)))
        }
    }
}

// How many bytes a block of a region has.
const BLOCK_SIZE: usize = 512;

// Prints the bytes of a block, or that there is none.
fn block(rt: &impl Print, bytes: &[u8]) -> io::Result<()> {
    if bytes.is_empty() {
        return rt.write_all(b"block none\n");
    }
    let mut line = [b'\n'; 7 + 2 * BLOCK_SIZE];
    line[..6].copy_from_slice(b"block ");
    let n = script_words::to_hex(bytes, &mut line[6..]);
    rt.write_all(&line[..7 + 2 * n])
}

// Does what a line asks, and prints its answer.
fn answer(rt: &impl Print, asked: Asked, region: &mut [u8]) -> io::Result<()> {
    match asked {
        Asked::Change(asked, stores) => change(rt, region, asked, stores),
        Asked::Read => rt.println(ReadText(journal_read::read_entries(region))),
        Asked::List => rt.println(ListText(journal_read::list(region))),
        Asked::Damage(place, byte) => {
            journal_lines::damage(region, place, byte);
            rt.write_all(b"damage ok\n")
        }
        Asked::Block(n) => block(rt, journal_lines::block_named(region, n)),
    }
}
