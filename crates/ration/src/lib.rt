// The ration: how many bytes an end may still send, or still has room for, on one session.
#![tactic(auto)]

ghost use Rattle.std.specs.Prelude.{◌≡◌};
ghost use Rattle.ration.specs.Ration.{largest, from_header, in_range, spend, grow};

// A finite ration, or one that never runs out.
#[derive(Clone, Copy, Debug, PartialEq, Eq)]
pub enum Ration {
    Finite(u32),
    Endless,
}

impl Ration {
    // The largest finite ration.
    pub const LARGEST: u32 = 2147483647;

    // The starting ration that a header number grants.
    pub fn from_header(number: u16) -> Ration
        ensures { result ≡ from_header number }
    {
        if number == 0 {
            return Ration::Endless;
        }
        Ration::Finite((number as u32) * 256)
    }

    // Whether a finite ration is at most the largest, which is the constant above.
    pub fn in_range(self) -> bool
        ensures value { result ≡ in_range self }
        ensures limit { Ration.LARGEST ≡ largest }
    {
        match self {
            Ration::Finite(left) => left <= Ration::LARGEST,
            Ration::Endless => true,
        }
    }

    // The ration after n bytes are spent; none where the ration does not allow them.
    pub fn spend(self, n: u32) -> Option<Ration>
        ensures { result ≡ spend self n }
    {
        match self {
            Ration::Finite(left) if n <= left => Some(Ration::Finite(left - n)),
            Ration::Finite(_) => None,
            Ration::Endless => Some(Ration::Endless),
        }
    }

    // The ration after an effective increment of n; none where it would pass the largest.
    pub fn grow(self, n: u32) -> Option<Ration>
        ensures { result ≡ grow self n }
    {
        match self {
            Ration::Finite(left) => match left.checked_add(n) {
                Some(sum) if sum <= Ration::LARGEST => Some(Ration::Finite(sum)),
                _ => None,
            },
            Ration::Endless => Some(self),
        }
    }
}
