// The ping clock: a smoothed round-trip time and its deviation, by the arithmetic of RFC 6298.
#![tactic(auto, unfolding(laws::specs::Pick::pick))]

mod sampler;

ghost use Rattle.std.specs.Prelude.{◌≡◌};
ghost use Rattle.clock_sample.specs.Clock.{new_clock, first, later, updated, good_clock, sample_rule, update_result};

use clock_numbers::{distance, within};
pub use sampler::{take_sample, with_sample};

// The smoothed time and the deviation are in milliseconds.
// Kept: both numbers are judged before any sample too, so every clock has them beside the flag.
#[derive(Clone, Copy)]
pub struct Clock {
    // Whether a sample has come.
    pub sampled: bool,
    pub smoothed: f64,
    pub deviation: f64,
}

// The refusal that a clock knows: its state, a sample or a setting is out of its range.
#[derive(Clone, Copy, Debug, PartialEq, Eq)]
pub struct BadValue;

impl Clock {
    // A clock before any sample.
    pub fn new() -> Clock
        ensures { result ≡ new_clock }
    {
        Clock {
            sampled: false,
            smoothed: 0.0,
            deviation: 0.0,
        }
    }

    // Whether the smoothed time and the deviation are from 0 to 60,000.
    pub fn is_good(self) -> bool
        ensures { result ≡ good_clock self }
    {
        within(0.0, 60000.0, self.smoothed) && within(0.0, 60000.0, self.deviation)
    }

    // The clock after its first sample.
    fn first(r: f64) -> Clock
        ensures { result ≡ first r }
    {
        Clock {
            sampled: true,
            smoothed: r,
            deviation: r / 2.0,
        }
    }

    // The clock after a later sample. The deviation needs the smoothed time from before the sample.
    fn later(self, r: f64) -> Clock
        ensures { result ≡ later self r }
    {
        Clock {
            sampled: true,
            smoothed: 0.875 * self.smoothed + 0.125 * r,
            deviation: 0.75 * self.deviation + 0.25 * distance(self.smoothed, r),
        }
    }

    // The clock after a sample of r milliseconds, first or later.
    #[tactic(auto, unfolding(laws::specs::Pick::pick, crate::specs::Clock::updated))]
    fn updated(self, r: f64) -> Clock
        ensures { result ≡ updated self r }
    {
        if self.sampled {
            self.later(r)
        } else {
            Clock::first(r)
        }
    }

    // The update by value: the clock after a sample in milliseconds.
    #[tactic(auto, unfolding(laws::specs::Pick::pick, crate::specs::Clock::sample_rule, clock_numbers::specs::Arithmetic::whole_number))]
    pub fn update(self, sample: u32) -> Result<Clock, BadValue>
        ensures { update_result self result ≡ sample_rule self sample }
    {
        if self.is_good() && sample <= 60000 {
            Ok(self.updated(f64::from(sample)))
        } else {
            Err(BadValue)
        }
    }
}
