// The reader of captures, which keeps a capture's bytes and its own place in them.
#![tactic(auto)]

ghost use Rattle.std.specs.Prelude.{◌≡◌};
ghost use Rattle.capture_rules.specs.Place.{step_at, next_as, step_as};
ghost use Rattle.capture_reader.specs.Capture.{first_place, reader_at_first, advanced};

use capture_rules::Step;
use capture_step::next_at;
use refusal::Failure;
use wire::{Message, Role};

// The place of the first message, behind the connection header, which is not read here.
pub const FIRST_PLACE: usize = 8;

// A reader at a place of the capture that is lent to it.
#[derive(Clone, Copy)]
pub struct Reader<'a> {
    pub capture: &'a [u8],
    pub place: usize,
}

impl<'a> Reader<'a> {
    // A reader at the first message of a capture.
    pub fn new(capture: &'a [u8]) -> Reader<'a>
        ensures { result ≡ reader_at_first capture.entry }
    {
        Reader {
            capture,
            place: FIRST_PLACE,
        }
    }

    // What is at the reader's place, from this sender; the reader moves past a message, and stays at its place after a refusal.
    pub fn next(&mut self, from: Role) -> Result<Message, Failure>
        ensures { (next_as result, self.new) ≡ advanced from self.old }
    {
        let step = next_at(self.capture, from, self.place);
        self.place = step.place;
        step.next
    }
}

// What a reader finds first in a capture, from this sender, and the place to read on from.
pub fn read_first(capture: &[u8], from: Role) -> Step
    ensures { step_as result ≡ step_at from capture.now first_place }
{
    let mut reader = Reader::new(capture);
    let next = reader.next(from);
    Step {
        next,
        place: reader.place,
    }
}

// What a reader finds at a place of a capture, from this sender, and the place to read on from.
pub fn read_at(capture: &[u8], from: Role, place: usize) -> Step
    ensures { step_as result ≡ step_at from capture.now place }
{
    let mut reader = Reader { capture, place };
    let next = reader.next(from);
    Step {
        next,
        place: reader.place,
    }
}
