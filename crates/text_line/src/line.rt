// A line of text in fixed memory.
ghost use Rattle.std.specs.Prelude.{◌≡◌, ◌≤◌, ◌++◌, [], length, IsOk};
ghost use Rattle.std.specs.Fmt.{decimal};
ghost use Rattle.laws.specs.Pick.{pick};
ghost use Rattle.text_line.specs.Line.{line_text, added, LineIs};

use crate::first;
use std::fmt;

/// How many bytes a line holds.
const LINE_SIZE: usize = 128;

/// Text of at most 128 bytes: the first bytes, as many as the length says; what does not fit is cut off.
#[derive(Clone, Copy)]
pub struct Line {
    pub bytes: [u8; 128],
    pub length: usize,
}

impl Line {
    /// A line with no text.
    pub fn new() -> Line
        ensures { LineIs result [] }
    {
        Line {
            bytes: [0u8; 128],
            length: 0,
        }
    }

    /// The text of the line.
    pub fn as_bytes(&self) -> &[u8]
        ensures text { result.now ≡ line_text self.now }
        ensures fits { length result.now ≤ LINE_SIZE }
    {
        first(&self.bytes, self.length)
    }

    /// Puts words behind the end of the line; what does not fit is cut off.
    pub fn push(&mut self, words: &[u8])
        ensures { LineIs self.new (added (line_text self.old) words.now) }
    {
        let at = self.length.min(LINE_SIZE);
        let fitting = first(words, LINE_SIZE - at);
        let end = at + fitting.len();
        self.bytes[at..end].copy_from_slice(fitting);
        self.length = end;
    }

    /// The line with words behind its end; what does not fit is cut off.
    pub fn text(mut self, words: &[u8]) -> Line
        ensures { LineIs result (added (line_text self) words.now) }
    {
        self.push(words);
        self
    }

    /// The line with a number behind its end, in decimal.
    pub fn number(self, n: u64) -> Line
        ensures { LineIs result (added (line_text self) (decimal n)) }
    {
        let mut digits = [0u8; 20];
        let k = io::decimal(n, &mut digits);
        self.text(&digits[..k])
    }

    /// The line with the name and the value of an item behind its end.
    pub fn item(self, name: &[u8], value: u64) -> Line
        ensures { LineIs result (added (line_text self) (name.now ++ decimal value)) }
    {
        self.text(name).number(value)
    }

    /// The line with the name of a flag behind its end, where the flag is set.
    pub fn flag(self, name: &[u8], set: bool) -> Line
        ensures { LineIs result (added (line_text self) (pick set name.now [])) }
    {
        self.text(if set { name } else { b"" })
    }
}

impl fmt::Write for Line {
    ghost write_str_gives = { λ l words m. LineIs m (added (line_text l) words) };

    fn write_str(&mut self, words: &str) -> fmt::Result
        ensures ok { IsOk result → LineIs self.new (added (line_text self.old) words.now) }
        ensures never_fails { IsOk result }
    {
        self.push(words.as_bytes());
        Ok(())
    }
}
