// All messages of a capture, counted and summed, exported for programs in C and Rust.
#![tactic(auto)]

ghost use Rattle.std.specs.Prelude.{◌≡◌};
ghost use Rattle.capture_export.specs.Words.{sender_of};
ghost use Rattle.capture_scan.specs.Scan.{all_words};

// What all messages of a capture come to, up to the first refusal or violation, in five words: its number, the place of its byte at
// fault, the place in the capture where it is, how many messages are before it, and their sum, each message in one number.
#[unsafe(no_mangle)]
pub extern "C" fn jmux_read_all(capture: &[u8], server: bool, found: &mut [u64; 5])
    ensures { found.new ≡ all_words (sender_of server) capture.now }
{
    capture_scan::jmux_read_all(capture, server, found);
}
