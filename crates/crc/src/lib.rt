// CRC-32C of a slice of bytes, by a table of 256 entries.
#![tactic(auto)]

mod table;

ghost use Rattle.std.specs.Prelude.{◌≡◌};
ghost use Rattle.crc.specs.Crc.{lowest_first, message_bits, crc_of};
ghost use Rattle.crc.specs.Steps.{after_bits, IsTable};

use table::TABLE;

// The state after the bits of one byte more.
fn after_byte(table: &[u32; 256], c: u32, b: u8) -> u32
    requires { IsTable table.now }
    ensures { result ≡ after_bits c (lowest_first 8 b) }
{
    let low = (c ^ (b as u32)) % 256;
    table[low as usize] ^ (c >> 8)
}

// The state after all bits of the bytes.
fn after_bytes(table: &[u32; 256], s: &[u8]) -> u32
    requires { IsTable table.now }
    ensures { result ≡ after_bits 0xffff_ffff (message_bits s.now) }
{
    let mut c: u32 = 0xffff_ffff;
    for b in s {
        c = after_byte(table, c, *b);
    }
    c
}

// The CRC-32C of the bytes. The table is lent, since each use of a constant makes a copy of it.
pub fn crc32c(s: &[u8]) -> u32
    ensures { result ≡ crc_of s.now }
{
    after_bytes(&TABLE, s) ^ 0xffff_ffff
}
