// Flags, and the first bytes of a slice.
ghost use Rattle.std.specs.Prelude.{◌≡◌, [], take, Some};
ghost use Rattle.laws.specs.Pick.{pick};

use std::fmt;

/// The first n bytes, or all where there are fewer.
pub fn first(bytes: &[u8], n: usize) -> &[u8]
    ensures { result.now ≡ take n bytes.now }
{
    bytes.get(..n).unwrap_or(bytes)
}

/// A flag of a text: its name, where it is set.
#[derive(Clone, Copy)]
pub struct Flag<'a> {
    pub name: &'a str,
    pub set: bool,
}

impl fmt::Display for Flag<'_> {
    ghost output = { λ flag. Some (pick flag.set flag.name.now []) };

    fn fmt<W: fmt::Write>(&self, f: &mut fmt::Formatter<W>) -> fmt::Result {
        f.write_str(if self.set { self.name } else { "" })
    }
}
