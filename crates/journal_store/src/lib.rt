// The calls that change a region: the store of an entry and the repair of the first bad block, whole or cut.
#![tactic(auto)]

ghost use Rattle.std.specs.Prelude.{◌≡◌, ◌+◌, ◌*◌, ◌<◌, ◌≤◌, min, length};
ghost use Rattle.std.proofs.Math.Seq.{paste};
ghost use Rattle.journal_rules.specs.Block.{journal_entry};
ghost use Rattle.journal_rules.specs.Calls.{reached, store_call, repair_call};
ghost use Rattle.journal_store.specs.Answers.{reached_as, stored_as, repaired_as};

use journal_block::block_of;
use journal_region::{Search, search_region};
use refusal::Refusal;

// How far a block is written: whole, with its number, which counts from 1, or cut after this many byte stores.
#[derive(Clone, Copy, Debug, PartialEq, Eq)]
pub enum Written {
    Whole(u8),
    Cut(u16),
}

// Stores a block at its place in a region, front to back, and stops after this many byte stores.
fn write_block(region: &mut [u8], place: u8, block: &[u8; 512], stores: usize) -> Written
    requires low { place < 128 }
    requires room { 512 * place + 512 ≤ length region.old }
    ensures bytes { region.new ≡ paste region.old (512 * place) block.now (min stores 512) }
    ensures answer { reached_as result ≡ reached stores (place + 1) }
{
    let at = 512 * usize::from(place);
    // Kept: byte stores are made one by one, front to back, as docs/JOURNAL.md says, so no library call copies them.
    for i in 0..stores.min(512) {
        region[at + i] = block[i];
    }
    if stores < 512 {
        Written::Cut(stores as u16)
    } else {
        Written::Whole(place + 1)
    }
}

// Stores an entry in the first bad block, front to back, and stops after this many byte stores; it answers the entry's serial.
pub fn store_some(
    region: &mut [u8],
    number: u8,
    kind: u8,
    stores: usize,
) -> Result<Written, Refusal>
    ensures { (stored_as result, region.new) ≡ store_call region.old (journal_entry number kind) stores }
{
    let found = search_region(&*region)?;
    if number > 127 {
        return Err(Refusal::NoSuchSession);
    }
    if kind > 3 {
        return Err(Refusal::BadValue);
    }
    let Search::BadAt(place) = found else {
        return Err(Refusal::RegionFull);
    };
    let serial = u32::from(place) + 1;
    let block = block_of(serial, number, kind);
    Ok(write_block(region, place, &block, stores))
}

// Stores an entry in the first bad block, front to back; it answers the entry's serial.
pub fn store(region: &mut [u8], number: u8, kind: u8) -> Result<Written, Refusal>
    ensures { (stored_as result, region.new) ≡ store_call region.old (journal_entry number kind) 512 }
{
    store_some(region, number, kind, 512)
}

// Zeroes the first bad block, front to back, and stops after this many byte stores; it answers nothing if no block is bad.
pub fn repair_some(region: &mut [u8], stores: usize) -> Result<Option<Written>, Refusal>
    ensures { (repaired_as result, region.new) ≡ repair_call region.old stores }
{
    let Search::BadAt(place) = search_region(&*region)? else {
        return Ok(None);
    };
    let zeros = [0u8; 512];
    Ok(Some(write_block(region, place, &zeros, stores)))
}

// Zeroes the first bad block, front to back; it answers nothing if no block is bad.
pub fn repair(region: &mut [u8]) -> Result<Option<Written>, Refusal>
    ensures { (repaired_as result, region.new) ≡ repair_call region.old 512 }
{
    repair_some(region, 512)
}
