// The CRC-32C of a slice of bytes, as programs in C and Rust have it.
#![tactic(auto)]

ghost use Rattle.std.specs.Prelude.{◌≡◌};
ghost use Rattle.crc.specs.Crc.{crc_of};

use crc::crc32c;

pub fn jmux_crc32c(bytes: &[u8]) -> u32
    ensures { result ≡ crc_of bytes.now }
{
    crc32c(bytes)
}
