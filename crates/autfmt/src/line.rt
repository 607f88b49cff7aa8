//! A buffer for the bytes of one line.
ghost use Rattle.std.specs.Prelude.{◌≡◌, ℕ, ◌<◌, ◌≤◌, ◌↔◌, List, [], ◌∷◌, ◌++◌, length, take, IsTrue, if◌then◌else◌};
ghost use Rattle.autfmt.specs.declared.line.TheConstants.{LONGEST_LINE};
ghost use Rattle.autfmt.specs.Line.{Fits};

use std::marker::Model;

/// The largest number of bytes in a line, without its line feed.
const LONGEST_LINE: usize = 8192;

/// A buffer for one line of at most 8192 bytes. The buffer has a fixed size, and never allocates memory.
#[derive(Drop)]
pub struct LineBuffer {
    bytes: [u8; LONGEST_LINE],
    len: usize,
}

impl Model for LineBuffer {
    ghost Value = { List ℕ };

    ghost view = { λ l. take l.len l.bytes };

    ghost invariant = { λ l. l.len ≤ LONGEST_LINE };
}

impl LineBuffer {
    /// Makes a buffer with an empty line.
    pub fn new() -> LineBuffer
        ensures { result ≡ [] }
    {
        LineBuffer {
            bytes: [0; LONGEST_LINE],
            len: 0,
        }
    }

    /// Appends the byte `b` to the line and returns true. If the line already has 8192 bytes, the call appends nothing
    /// and returns false.
    pub fn push(&mut self, b: u8) -> bool
        ensures fits { IsTrue result ↔ (length self.old < LONGEST_LINE) }
        ensures line { self.new ≡ (if result then self.old ++ b ∷ [] else self.old) }
    {
        if self.len == LONGEST_LINE {
            return false;
        }
        self.bytes[self.len] = b;
        self.len += 1;
        true
    }

    /// Appends all bytes of `b` to the line and returns true. If the line would then have more than 8192 bytes, the
    /// call appends nothing and returns false.
    pub(crate) fn extend(&mut self, b: &[u8]) -> bool
        ensures fits { IsTrue result ↔ Fits self.old b.now }
        ensures line { self.new ≡ (if result then self.old ++ b.now else self.old) }
    {
        if LONGEST_LINE - self.len < b.len() {
            return false;
        }
        let end = self.len + b.len();
        self.bytes[self.len..end].copy_from_slice(b);
        self.len = end;
        true
    }

    /// Returns the bytes of the line.
    pub fn line(&self) -> &[u8]
        ensures bytes { result.now ≡ self.now }
        ensures short { length self.now ≤ LONGEST_LINE }
    {
        &self.bytes[..self.len]
    }

    /// Removes all bytes from the line.
    pub fn clear(&mut self)
        ensures { self.new ≡ [] }
    {
        self.len = 0;
    }
}
