// The message at a place of a capture, and the place to read on from.
#![tactic(auto)]

ghost use Rattle.std.specs.Prelude.{◌≡◌};
ghost use Rattle.wire_read.specs.Answer.{with_size};
ghost use Rattle.capture_rules.specs.Place.{message_at, step_at, step_as};
ghost use Rattle.capture_step.specs.Answer.{sized_at_as};

use capture_rules::Step;
use refusal::{Failure, Refusal};
use wire::Role;
use wire_read::{Sized, read_sized};

// The message at a place, with its size.
fn sized_at(capture: &[u8], from: Role, place: usize) -> Result<Sized, Failure>
    ensures { sized_at_as result ≡ with_size (message_at from capture.now place) }
{
    if capture.len() < place {
        return Err(Failure::Refused(Refusal::IllFormed));
    }
    Ok(read_sized(from, &capture[place..])?)
}

// What a sender's capture has at a place, and the place to read on from.
#[tactic(auto, using(crate::proofs::Sizes::failed_step))]
pub fn next_at(capture: &[u8], from: Role, place: usize) -> Step
    ensures { step_as result ≡ step_at from capture.now place }
{
    match sized_at(capture, from, place) {
        Ok(sized) => Step {
            next: Ok(sized.message),
            place: place + sized.size,
        },
        Err(failure) => Step {
            next: Err(failure),
            place,
        },
    }
}
