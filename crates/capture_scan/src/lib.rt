// All messages of a capture, counted and summed, for programs in C and Rust.
#![tactic(auto)]

ghost use Rattle.std.specs.Prelude.{◌≡◌, ◌≤◌, Err};
ghost use Rattle.laws.specs.Result.{fault, violation};
ghost use Rattle.capture_rules.specs.Place.{message_at, next_as};
ghost use Rattle.capture_reader.specs.Capture.{first_place};
ghost use Rattle.capture_export.specs.Words.{sender_of};
ghost use Rattle.capture_scan.specs.Scan.{packed, all_words};
ghost use Rattle.capture_scan.specs.Tallies.{with_result, completed, empty_tally};

use capture_export::{items_of, sender};
use capture_reader::{FIRST_PLACE, read_at};
use refusal::Failure;
use wire::{Message, Role};

// What was read up to a place; the number is 0 while reading goes on.
// Kept: these are the five words that programs in C get from `jmux_read_all`.
#[derive(Clone, Copy, Debug, PartialEq, Eq)]
pub struct Tally {
    pub number: u64,
    pub fault: u64,
    pub place: usize,
    pub messages: u64,
    pub sum: u64,
}

// The items of a message in one number.
fn packed_items(m: Message) -> u64
    ensures { result ≡ packed m }
{
    let items = items_of(m);
    items.kind + 16 * items.flags + 256 * items.session + 65536 * items.value
}

// The tally with a refusal or violation at its place: it keeps the place, the messages and the sum.
fn stopped(t: Tally, number: u8, offset: u32) -> Tally
    ensures { result ≡ with_result t (violation (fault number offset)) }
{
    Tally {
        number: number as u64,
        fault: offset as u64,
        ..t
    }
}

// The tally with a failure at its place.
fn failed(t: Tally, failure: Failure) -> Tally
    ensures { result ≡ with_result t (next_as (Err failure)) }
{
    match failure {
        Failure::Refused(refusal) => stopped(t, refusal.number(), 0),
        Failure::Violated(fault) => stopped(t, fault.violation.number(), fault.place()),
    }
}

// The tally with what is at its place.
fn with_next(capture: &[u8], from: Role, t: Tally) -> Tally
    requires { t.messages ≤ t.place }
    ensures { (result ≡ with_result t (message_at from capture.now t.place)) × (result.messages ≤ result.place) }
{
    let step = read_at(capture, from, t.place);
    match step.next {
        Ok(m) => Tally {
            number: 0,
            fault: 0,
            place: step.place,
            messages: t.messages + 1,
            sum: t.sum.wrapping_add(packed_items(m)),
        },
        Err(failure) => failed(t, failure),
    }
}

// The tally of all messages from the first place on.
fn tally_all(capture: &[u8], from: Role) -> Tally
    ensures { result ≡ completed from capture.now (empty_tally first_place) }
{
    let mut tally = Tally {
        number: 0,
        fault: 0,
        place: FIRST_PLACE,
        messages: 0,
        sum: 0,
    };
    while tally.number == 0 {
        tally = with_next(capture, from, tally);
    }
    tally
}

// What all messages of a capture come to, up to the first refusal or violation, in five words: its number, the place of its byte at
// fault, the place in the capture where it is, how many messages are before it, and their sum, each message in one number.
pub fn jmux_read_all(capture: &[u8], server: bool, found: &mut [u64; 5])
    ensures { found.new ≡ all_words (sender_of server) capture.now }
{
    let tally = tally_all(capture, sender(server));
    *found = [
        tally.number,
        tally.fault,
        tally.place as u64,
        tally.messages,
        tally.sum,
    ];
}
