// The CRC-32C of a slice of bytes, exported for programs in C and Rust.
#![tactic(auto)]

ghost use Rattle.std.specs.Prelude.{◌≡◌};
ghost use Rattle.crc.specs.Crc.{crc_of};

#[unsafe(no_mangle)]
pub extern "C" fn jmux_crc32c(bytes: &[u8]) -> u32
    ensures { result ≡ crc_of bytes.now }
{
    crc_export::jmux_crc32c(bytes)
}
