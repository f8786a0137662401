// Runs the CRC on the published values and on a few lengths more, and writes a line for each.
#![tactic(auto)]

use crc::crc32c;
use std::io;

// Writes what the bytes are, and their CRC.
fn show(rt: &impl Print, what: &str, bytes: &[u8]) -> io::Result<()> {
    println!(rt; "{what}: {:08x}", crc32c(bytes))
}

// The values of RFC 3720, section B.4, and the check value of the digits.
fn published(rt: &impl Print) -> io::Result<()> {
    show(rt, "the digits 1 to 9", b"123456789")?;
    show(rt, "32 bytes 00", &[0u8; 32])?;
    show(rt, "32 bytes ff", &[255u8; 32])?;
    show(
        rt,
        "the bytes 00 to 1f",
        b"\x00\x01\x02\x03\x04\x05\x06\x07\x08\x09\x0a\x0b\x0c\x0d\x0e\x0f\x10\x11\x12\x13\x14\x15\x16\x17\x18\x19\x1a\x1b\x1c\x1d\x1e\x1f",
    )?;
    show(
        rt,
        "the bytes 1f to 00",
        b"\x1f\x1e\x1d\x1c\x1b\x1a\x19\x18\x17\x16\x15\x14\x13\x12\x11\x10\x0f\x0e\x0d\x0c\x0b\x0a\x09\x08\x07\x06\x05\x04\x03\x02\x01\x00",
    )?;
    show(
        rt,
        "an iSCSI read command",
        b"\x01\xc0\x00\x00\x00\x00\x00\x00\x00\x00\x00\x00\x00\x00\x00\x00\x14\x00\x00\x00\x00\x00\x04\x00\x00\x00\x00\x14\x00\x00\x00\x18\x28\x00\x00\x00\x00\x00\x00\x00\x02\x00\x00\x00\x00\x00\x00\x00",
    )
}

// The bytes 00 to ff, twice.
fn rising() -> [u8; 512] {
    std::array::from_fn(|i| (i % 256) as u8)
}

fn main(rt: HostRuntime) -> io::Result<()> {
    published(&rt)?;
    show(&rt, "no byte", &[])?;
    show(&rt, "1 byte 00", &[0])?;
    show(&rt, "1 byte ff", &[255])?;
    show(&rt, "507 bytes 00", &[0u8; 507])?;
    show(&rt, "508 bytes 00", &[0u8; 508])?;
    show(&rt, "the bytes 00 to ff, twice", &rising())
}
