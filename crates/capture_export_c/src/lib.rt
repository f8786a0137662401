// What the capture reader finds at a place, in words, exported for programs in C and Rust.
#![tactic(auto)]

ghost use Rattle.std.specs.Prelude.{◌≡◌};
ghost use Rattle.capture_rules.specs.Place.{step_at};
ghost use Rattle.capture_export.specs.Words.{sender_of, step_words};

// What is at a place of a capture, in seven words: the number of a refusal or violation, or 0; the place of the byte at fault; the
// place to read on from; and the message's type, flags or shift, session, and length, cookie or increment.
#[unsafe(no_mangle)]
pub extern "C" fn jmux_read_at(capture: &[u8], server: bool, place: usize, found: &mut [u64; 7])
    ensures { found.new ≡ step_words (step_at (sender_of server) capture.now place) }
{
    capture_export::jmux_read_at(capture, server, place, found);
}
