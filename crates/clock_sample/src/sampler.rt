// The sampler: a ping clock is lent to it and changed in place.
ghost use Rattle.std.specs.Prelude.{◌≡◌, OnErr};
ghost use Rattle.clock_sample.specs.Clock.{sample_rule, outcome_result, update_result};

use crate::{BadValue, Clock};

// Takes a sample into a clock that is lent and changed in place; a refusal leaves it as it was.
pub fn take_sample(clock: &mut Clock, sample: u32) -> Result<(), BadValue>
    ensures ruled { (outcome_result result, clock.new) ≡ sample_rule clock.old sample }
    ensures as_it_was { OnErr result (clock.new ≡ clock.old) }
{
    *clock = clock.update(sample)?;
    Ok(())
}

// The sampler on a clock that is passed and returned, for a caller that lends nothing.
pub fn with_sample(mut clock: Clock, sample: u32) -> Result<Clock, BadValue>
    ensures { update_result clock result ≡ sample_rule clock sample }
{
    take_sample(&mut clock, sample)?;
    Ok(clock)
}
