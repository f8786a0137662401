// What a line asks.
ghost use Rattle.std.specs.Prelude.{◌≡◌};
ghost use Rattle.journal_lines.specs.Lines.{region_line, first_line, with_stores, store_line, store_line_of, only_word, damage_line, damage_line_at, block_line, asked_line, later_line};

use crate::keywords::keyword_of;
use crate::{Asked, Change, Keyword, WrongLine};
use script_words::{decimal_of, has_more, head, id_of, is, is_skipped, size_of, tail};

// The line that lends a region.
fn region_line(line: &[u8]) -> Option<usize>
    ensures { result ≡ region_line line.now }
{
    if is(head(line), b"region") {
        size_of(tail(line), 70000)
    } else {
        None
    }
}

// What a line asks before there is a region: one of a length, or nothing where it is skipped.
pub fn first_line(line: &[u8]) -> Result<Option<usize>, WrongLine>
    ensures { result ≡ first_line line.now }
{
    if is_skipped(line) {
        return Ok(None);
    }
    match region_line(line) {
        Some(length) => Ok(Some(length)),
        None => Err(WrongLine),
    }
}

// A call with as many byte stores as the word behind the first says, or with all if there is no further word.
fn with_stores(change: Change, s: &[u8]) -> Option<Asked>
    ensures { result ≡ with_stores change s.now }
{
    if has_more(s) {
        let stores = size_of(tail(s), 999)?;
        return Some(Asked::Change(change, Some(stores)));
    }
    Some(Asked::Change(change, None))
}

// The store of a session number: a kind follows, and byte stores may.
fn store_line_of(number: u8, rest: &[u8]) -> Option<Asked>
    ensures { result ≡ store_line_of number rest.now }
{
    let kind = id_of(head(rest))?;
    with_stores(Change::Store(number, kind), rest)
}

fn store_line(rest: &[u8]) -> Option<Asked>
    ensures { result ≡ store_line rest.now }
{
    let number = id_of(head(rest))?;
    store_line_of(number, tail(rest))
}

// What a line of one word asks.
fn only_word(asked: Asked, s: &[u8]) -> Option<Asked>
    ensures { result ≡ only_word asked s.now }
{
    if has_more(s) { None } else { Some(asked) }
}

// The damage of a place, of which the byte is the rest of the line.
fn damage_line_at(place: usize, rest: &[u8]) -> Option<Asked>
    ensures { result ≡ damage_line_at place rest.now }
{
    let byte = id_of(rest)?;
    Some(Asked::Damage(place, byte))
}

// The damage of a place below the region's length.
fn damage_line(rest: &[u8], length: usize) -> Option<Asked>
    ensures { result ≡ damage_line length rest.now }
{
    let place = decimal_of(head(rest))? as usize;
    if place < length {
        damage_line_at(place, tail(rest))
    } else {
        None
    }
}

fn block_line(rest: &[u8]) -> Option<Asked>
    ensures { result ≡ block_line rest.now }
{
    let block = decimal_of(rest)?;
    Some(Asked::Block(block))
}

// What a line that is not skipped asks.
fn asked_line(line: &[u8], length: usize) -> Option<Asked>
    ensures { result ≡ asked_line length line.now }
{
    let rest = tail(line);
    match keyword_of(head(line)) {
        Some(Keyword::Store) => store_line(rest),
        Some(Keyword::Repair) => with_stores(Change::Repair, line),
        Some(Keyword::Read) => only_word(Asked::Read, line),
        Some(Keyword::List) => only_word(Asked::List, line),
        Some(Keyword::Damage) => damage_line(rest, length),
        Some(Keyword::Block) => block_line(rest),
        None => None,
    }
}

// What a line asks where there is a region of a length, or nothing where it is skipped.
pub fn later_line(line: &[u8], length: usize) -> Result<Option<Asked>, WrongLine>
    ensures { result ≡ later_line length line.now }
{
    if is_skipped(line) {
        Ok(None)
    } else if let Some(asked) = asked_line(line, length) {
        Ok(Some(asked))
    } else {
        Err(WrongLine)
    }
}
