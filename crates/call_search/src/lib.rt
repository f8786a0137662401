// The search of a turn, by halves: the nearest flag that is set after the number served last.
#![tactic(auto)]

ghost use Rattle.std.specs.Prelude.{◌≡◌, ◌+◌, ◌≤◌};
ghost use Rattle.laws.specs.Circle.{following as circle_following};
ghost use Rattle.call_search.specs.Flags.{is_set, first_set, nearest_set};

// The number after i; after 127 comes 0.
fn following(i: u8) -> u8
    ensures { result ≡ circle_following i }
{
    (((i as u16) + 1) % 128) as u8
}

// Whether the flag of a number is set; a number past the flags has no flag.
fn is_set(flags: &[u8], n: u8) -> bool
    ensures { result ≡ is_set flags.now n }
{
    let i = n as usize;
    if i < flags.len() {
        return flags[i] == 1;
    }
    false
}

// The first number whose flag is set, of the `count` numbers that begin at `from`; none if no flag of these is set.
fn first_set(flags: &[u8], from: u8, count: u8) -> Option<u8>
    requires { from + count ≤ 128 }
    ensures { result ≡ first_set flags.now from count }
{
    if count == 0 {
        return None;
    }
    if count == 1 {
        if is_set(flags, from) {
            return Some(from);
        }
        return None;
    }
    let half = count / 2;
    let middle = from + half;
    let rest = count - half;
    // The upper half is asked only if the lower one names no number.
    let lower = first_set(flags, from, half);
    match lower {
        Some(_) => lower,
        None => first_set(flags, middle, rest),
    }
}

// The nearest number after `last` whose flag is set, with `last` itself checked last; none if no flag is set.
pub fn nearest_set(flags: &[u8], last: u8) -> Option<u8>
    ensures { result ≡ nearest_set flags.now last }
{
    // Neither range goes round: the numbers from `start` up to 127, then those below `start`.
    let start = following(last);
    let after = first_set(flags, start, 128 - start);
    match after {
        Some(_) => after,
        None => first_set(flags, 0, start),
    }
}
