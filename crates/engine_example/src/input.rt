// The input that no call has used yet.
ghost use Rattle.std.specs.Prelude.{◌≤◌};
ghost use Rattle.engine_example.specs.declared.input.TheConstants.{SIZE};

use std::io;
use std::io::Read;

// As long as the longest message.
const SIZE: usize = 65539;

// What no call has used yet lies between two places of the bytes.
#[derive(Drop)]
pub(crate) struct Input {
    bytes: [u8; SIZE],
    from: usize,
    to: usize,
    ghost ordered: { from ≤ to },
    ghost inside: { to ≤ SIZE },
}

impl Input {
    pub(crate) fn new() -> Input {
        Input {
            bytes: [0u8; SIZE],
            from: 0,
            to: 0,
        }
    }

    pub(crate) fn as_slice(&self) -> &[u8] {
        &self.bytes[self.from..self.to]
    }

    // Drops the bytes that a call has used, which are the first; no byte moves for it.
    pub(crate) fn drop_first(&mut self, used: usize) {
        self.from += used.min(self.to - self.from);
    }

    // Moves what is left to the front, so that the longest message fits.
    fn move_to_front(&mut self) {
        if 0 < self.from {
            self.bytes.copy_within(self.from..self.to, 0);
            self.to -= self.from;
            self.from = 0;
        }
    }

    // Makes one read of as many bytes as fit behind what is left, and returns whether the input has not ended.
    pub(crate) fn read(&mut self, stdin: &mut impl Read) -> io::Result<bool> {
        self.move_to_front();
        let n = stdin.read(&mut self.bytes[self.to..])?;
        self.to += n;
        Ok(n != 0)
    }
}
