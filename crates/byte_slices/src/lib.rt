// Bytes of a slice: the place of the first of a value, and a copy into another slice.
#![tactic(auto)]

ghost use Rattle.std.specs.Prelude.{◌≡◌, ◌==◌, ◌+◌, ◌≤◌, ◌++◌, length, take, drop, position};
ghost use Rattle.byte_slices.specs.Bytes.{index_of, slice};

// The index of the first byte of a value.
fn first_place(s: &[u8], value: u8) -> Option<usize>
    ensures { result ≡ position (λ b. b == value) s.now }
{
    s.iter().position(|b| *b == value)
}

// The index of the first byte of a value between two indices, or the second index if none is there.
pub fn find(s: &[u8], from: usize, to: usize, value: u8) -> usize
    requires low { from ≤ to }
    requires high { to ≤ length s.now }
    ensures place { result ≡ from + index_of value (slice from to s.now) }
    ensures within { result ≤ to }
{
    match first_place(&s[from..to], value) {
        Some(i) => from + i,
        None => to,
    }
}

// Copies all bytes to the front of a slice, whose other bytes stay.
pub fn copy(src: &[u8], dst: &mut [u8])
    requires { length src.now ≤ length dst.old }
    ensures sized { length dst.new ≡ length dst.old }
    ensures copied { dst.new ≡ take (length src.now) src.now ++ drop (length src.now) dst.old }
{
    dst[..src.len()].copy_from_slice(src);
}
