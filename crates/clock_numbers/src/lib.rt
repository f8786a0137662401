// Numbers of binary64: whether one is in a range, the larger and the smaller of two, the distance of two, and one held between two.
#![tactic(auto, unfolding(laws::specs::Pick::pick))]

ghost use Rattle.std.specs.Prelude.{◌≡◌, ◌&&◌};
ghost use Rattle.std.specs.Float.Ieee.{le};
ghost use Rattle.clock_numbers.specs.Arithmetic.{larger, smaller, distance, held};

// Whether x is a number from low to high.
pub fn within(low: f64, high: f64, x: f64) -> bool
    ensures { result ≡ (le low x && le x high) }
{
    low <= x && x <= high
}

// Kept: where x is NaN it is the answer, and `f64::max` answers the other number.
pub fn larger(x: f64, y: f64) -> f64
    ensures { result ≡ larger x y }
{
    if x < y { y } else { x }
}

// Kept: where x is NaN it is the answer, and `f64::min` answers the other number.
pub fn smaller(x: f64, y: f64) -> f64
    ensures { result ≡ smaller x y }
{
    if y < x { y } else { x }
}

// The smaller subtracted from the larger.
pub fn distance(x: f64, y: f64) -> f64
    ensures { result ≡ distance x y }
{
    if y < x { x - y } else { y - x }
}

// x held between a floor and a ceiling.
// Kept: NaN is held at the floor, and `f64::clamp` leaves it NaN and asks that the floor is not above the ceiling.
pub fn held(floor: f64, ceiling: f64, x: f64) -> f64
    ensures { result ≡ held floor ceiling x }
{
    smaller(ceiling, larger(floor, x))
}
