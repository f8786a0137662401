// What lines do to a region that are no calls of the journal.
ghost use Rattle.std.specs.Prelude.{◌≡◌};
ghost use Rattle.journal_lines.specs.Blocks.{damaged, block_named};

// Sets one byte of a region; a place behind the region is left alone.
pub fn damage(region: &mut [u8], place: usize, byte: u8)
    ensures { region.new ≡ damaged place byte region.old }
{
    if place < region.len() {
        region[place] = byte;
    }
}

// The bytes of a block, counted from 1, or no bytes where the region does not hold the whole of it.
pub fn block_named(region: &[u8], n: u32) -> &[u8]
    ensures { result.now ≡ block_named n region.now }
{
    if n == 0 {
        return &region[..0];
    }
    let from = 512 * ((n - 1) as usize);
    if from + 512 <= region.len() {
        return &region[from..from + 512];
    }
    &region[..0]
}
