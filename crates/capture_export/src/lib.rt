// What the capture reader finds at a place, in words, for programs in C and Rust.
#![tactic(auto)]

mod messages;

ghost use Rattle.std.specs.Prelude.{◌≡◌, ◌∷◌, []};
ghost use Rattle.capture_rules.specs.Place.{step_at, step_as};
ghost use Rattle.capture_export.specs.Words.{sender_of, step_words};
ghost use Rattle.capture_export.specs.Answers.{found_words};

use capture_reader::read_at;
use capture_rules::Step;
pub use messages::items_of;
use refusal::Failure;
use wire::Role;

// The items of a message: the number of the type, the flags or the shift, the session, and the length, cookie or increment.
#[derive(Clone, Copy, Debug, PartialEq, Eq)]
pub struct Items {
    pub kind: u64,
    pub flags: u64,
    pub session: u64,
    pub value: u64,
}

// What is at a place of a capture: the number of a refusal or violation, or 0; the place of the byte at fault, or 0; the place to read
// on from; and the items of the message, or 0.
// Kept: a number that is 0 for a message is what programs in C get from `jmux_read_at`.
#[derive(Clone, Copy, Debug, PartialEq, Eq)]
pub struct Finding {
    pub number: u64,
    pub fault: u64,
    pub next: usize,
    pub items: Items,
}

// The sender of a capture.
pub fn sender(server: bool) -> Role
    ensures { result ≡ sender_of server }
{
    if server { Role::Server } else { Role::Client }
}

// A refusal or violation: no message, so no items.
fn nothing(number: u8, fault: u32, next: usize) -> Finding
    ensures { found_words result ≡ number ∷ fault ∷ next ∷ 0 ∷ 0 ∷ 0 ∷ 0 ∷ [] }
{
    Finding {
        number: number as u64,
        fault: fault as u64,
        next,
        items: Items {
            kind: 0,
            flags: 0,
            session: 0,
            value: 0,
        },
    }
}

fn found_in(step: Step) -> Finding
    ensures { found_words result ≡ step_words (step_as step) }
{
    match step.next {
        Ok(message) => Finding {
            number: 0,
            fault: 0,
            next: step.place,
            items: items_of(message),
        },
        Err(Failure::Refused(refusal)) => nothing(refusal.number(), 0, step.place),
        Err(Failure::Violated(fault)) => {
            nothing(fault.violation.number(), fault.place(), step.place)
        }
    }
}

// What is at a place of a capture, in seven words: the number of a refusal or violation, or 0; the place of the byte at fault; the
// place to read on from; and the message's type, flags or shift, session, and length, cookie or increment.
pub fn jmux_read_at(capture: &[u8], server: bool, place: usize, found: &mut [u64; 7])
    ensures { found.new ≡ step_words (step_at (sender_of server) capture.now place) }
{
    let there = found_in(read_at(capture, sender(server), place));
    *found = [
        there.number,
        there.fault,
        there.next as u64,
        there.items.kind,
        there.items.flags,
        there.items.session,
        there.items.value,
    ];
}
