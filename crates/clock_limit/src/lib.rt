// The limit for a ping: fixed, or measured by a ping clock and held between a floor and a ceiling.
#![tactic(auto, unfolding(laws::specs::Pick::pick))]

ghost use Rattle.std.specs.Prelude.{◌≡◌};
ghost use Rattle.clock_limit.specs.Limit.{good_setting, measured, limit_under, limit_rule, limit_result};

use clock_numbers::{held, larger, within};
use clock_sample::{BadValue, Clock};

// Where the limit for a ping comes from: it is fixed, or measured and held between a floor and a ceiling.
#[derive(Clone, Copy)]
pub enum Setting {
    Fixed { limit: f64 },
    Measured { floor: f64, ceiling: f64 },
}

impl Setting {
    // Whether each number is from 1 to 60,000 and the floor is not above the ceiling.
    fn is_good(self) -> bool
        ensures { result ≡ good_setting self }
    {
        match self {
            Setting::Fixed { limit } => within(1.0, 60000.0, limit),
            Setting::Measured { floor, ceiling } => {
                within(1.0, 60000.0, floor) && within(1.0, 60000.0, ceiling) && floor <= ceiling
            }
        }
    }
}

// The measured limit before it is held: 1000 before any sample.
fn measured(clock: Clock) -> f64
    ensures { result ≡ measured clock }
{
    if clock.sampled {
        clock.smoothed + larger(1.0, 4.0 * clock.deviation)
    } else {
        1000.0
    }
}

// The limit under a setting, where both are good.
fn limit_under(clock: Clock, setting: Setting) -> f64
    ensures { result ≡ limit_under setting clock }
{
    match setting {
        Setting::Fixed { limit } => limit,
        Setting::Measured { floor, ceiling } => held(floor, ceiling, measured(clock)),
    }
}

// The limit for a ping, in milliseconds.
#[tactic(auto, unfolding(laws::specs::Pick::pick, crate::specs::Limit::limit_rule))]
pub fn limit_of(clock: Clock, setting: Setting) -> Result<f64, BadValue>
    ensures { limit_result result ≡ limit_rule clock setting }
{
    if clock.is_good() && setting.is_good() {
        Ok(limit_under(clock, setting))
    } else {
        Err(BadValue)
    }
}
