// The search of a region for its first bad block.
#![tactic(auto)]

ghost use Rattle.std.specs.Prelude.{◌≡◌, true};
ghost use Rattle.journal_rules.specs.Region.{sized, blocks as region_blocks};
ghost use Rattle.journal_region.specs.Search.{searched};

use journal_block::is_good;
use refusal::Refusal;

// What a search finds: the place of the first bad block, or how many blocks are all good.
#[derive(Clone, Copy, Debug, PartialEq, Eq)]
pub enum Search {
    BadAt(u8),
    AllGood(u8),
}

// The first bad block of a region of 1 to 128 whole blocks.
fn search_blocks(region: &[u8], blocks: u8) -> Search
    requires { (sized region.now ≡ true) × (blocks ≡ region_blocks region.now) }
    ensures { Ok result ≡ searched region.now }
{
    for place in 0..blocks {
        let at = 512 * usize::from(place);
        if !is_good(&region[at..at + 512], place) {
            return Search::BadAt(place);
        }
    }
    Search::AllGood(blocks)
}

// The first bad block of a region; one that is not 1 to 128 whole blocks is refused.
pub fn search_region(region: &[u8]) -> Result<Search, Refusal>
    ensures { result ≡ searched region.now }
{
    let blocks = region.len() / 512;
    if region.len() % 512 != 0 || blocks < 1 || blocks > 128 {
        return Err(Refusal::WrongRoom);
    }
    Ok(search_blocks(region, blocks as u8))
}
