// The calls that read a region: its entries, and the starts that are not to be retried.
#![tactic(auto)]

ghost use Rattle.std.specs.Prelude.{◌≡◌, true, ◌+◌, ◌*◌, ◌≤◌, length, map};
ghost use Rattle.journal_rules.specs.Listing.{is_answered, not_to_retry};
ghost use Rattle.journal_rules.specs.Region.{block_at, entry_in, sized, first_bad, entries_of};
ghost use Rattle.journal_rules.specs.Calls.{read_call, list_call};
ghost use Rattle.journal_read.specs.Answers.{entry_as, entries_as, listed_as, begins_open};

mod block_list;
#[cfg(test)]
mod tests;

use arrayvec::ArrayVec;
pub use block_list::BlockList;
use journal_region::{Search, search_region};
use refusal::Refusal;

// An entry of a region: a session number, and a kind: 0 start, 1 complete, 2 may be retried, 3 must not be retried.
// Kept: a kind is the number that a store takes, which refuses one above 3, as the claim `Refusals` says.
#[derive(Clone, Copy, Debug, Default, PartialEq, Eq)]
pub struct Entry {
    pub number: u8,
    pub kind: u8,
}

/// The entries of a region, in the order of their serials.
pub type Entries = BlockList<Entry>;

/// The serials of the starts of a region that are not to be retried, in order.
pub type Listing = BlockList<u8>;

// What stands in the block at a place, whether it is good or not.
fn entry_at(region: &[u8], place: u8) -> Entry
    requires { 512 * place + 512 ≤ length region.now }
    ensures { entry_as result ≡ entry_in (block_at region.now place) }
{
    let at = 512 * usize::from(place);
    Entry {
        number: region[at + 4],
        kind: region[at + 5],
    }
}

// The entries of the blocks before the first bad one.
fn entries_before(region: &[u8], count: u8) -> Entries
    requires { (sized region.now ≡ true) × (count ≡ first_bad region.now) }
    ensures { map entry_as result.items ≡ entries_of region.now }
{
    let mut entries = ArrayVec::new();
    for place in 0..count {
        entries.push(entry_at(region, place));
    }
    BlockList::of(&entries)
}

// The entries of a region, in the order of their serials.
pub fn read_entries(region: &[u8]) -> Result<Entries, Refusal>
    ensures { entries_as result ≡ read_call region.now }
{
    let count = match search_region(region)? {
        Search::BadAt(place) => place,
        Search::AllGood(count) => count,
    };
    Ok(entries_before(region, count))
}

// Whether an entry answers a start of a session number: a 1 or 2 for the number stands before its next start.
fn is_answered(number: u8, later: &[Entry]) -> bool
    ensures { result ≡ is_answered number (map entry_as later.now) }
{
    for entry in later {
        if entry.number == number && entry.kind < 3 {
            return entry.kind != 0;
        }
    }
    false
}

// Whether a start stands first, and no entry behind it answers it.
fn begins_open(entries: &[Entry]) -> bool
    ensures { result ≡ begins_open (map entry_as entries.now) }
{
    match entries {
        [] => false,
        [start, later @ ..] => start.kind == 0 && !is_answered(start.number, later),
    }
}

// The serials of the starts that no entry behind them answers, in order.
fn open_starts(entries: &[Entry]) -> Listing
    requires { length entries.now ≤ 128 }
    ensures { result.items ≡ not_to_retry 0 (map entry_as entries.now) }
{
    let mut serials = ArrayVec::new();
    for place in 0..entries.len() {
        if begins_open(&entries[place..]) {
            serials.push(place as u8 + 1);
        }
    }
    BlockList::of(&serials)
}

// The serials of the starts of a region that are not to be retried, in order.
pub fn list(region: &[u8]) -> Result<Listing, Refusal>
    ensures { listed_as result ≡ list_call region.now }
{
    let entries = read_entries(region)?;
    Ok(open_starts(entries.as_slice()))
}
