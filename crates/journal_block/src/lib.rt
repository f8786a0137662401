// The block of an entry, byte by byte, and the test of one.
#![tactic(auto)]

ghost use Rattle.std.specs.Prelude.{◌≡◌};
ghost use Rattle.journal_rules.specs.Block.{block_of, journal_entry};
ghost use Rattle.journal_rules.specs.Region.{good};

// The block of an entry, for a driver that stores its bytes itself: front to back, the last one last.
pub fn block_of(serial: u32, number: u8, kind: u8) -> [u8; 512]
    ensures { result ≡ block_of serial (journal_entry number kind) }
{
    let mut block = [0u8; 512];
    block[..4].copy_from_slice(&serial.to_be_bytes());
    block[4] = number;
    block[5] = kind;
    let checksum = crc::crc32c(&block[..507]);
    block[507..511].copy_from_slice(&checksum.to_be_bytes());
    block[511] = 0xa5;
    block
}

// Whether a block is good at a place, which counts from 0.
pub fn is_good(block: &[u8], place: u8) -> bool
    ensures { result ≡ good place block.now }
{
    if block.len() != 512 {
        return false;
    }
    let number = block[4];
    let kind = block[5];
    if number > 127 || kind > 3 {
        return false;
    }
    let whole = block_of(u32::from(place) + 1, number, kind);
    // All 512 bytes are compared, the mark too.
    block == &whole[..]
}
