//! The line splitter (`Cutter`) divides the bytes of a source (the object from which the input is read) into lines. The
//! line splitter reads the bytes in chunks. If a line and its line feed lie within one chunk, the line is not copied.
//! Otherwise, the parts of the line are copied to a buffer.
ghost use Rattle.std.specs.Prelude.{◌≡◌, ℕ, ◌+◌, ◌<◌, List, [], ◌∷◌, ◌++◌, length, take, drop, true, false, IsTrue};
ghost use Rattle.std.specs.Prelude.{Some, None, Ok, IfSome, IfNone};
ghost use Rattle.std.specs.List.{slice_range};
ghost use Rattle.std.specs.Io.KnownBytes.{Consumes, IsAtEnd};
ghost use Rattle.autfmt.specs.Stream.{CountsFailure};
ghost use Rattle.autfmt.specs.Texts.{IsOneLine};
ghost use Rattle.autfmt.specs.Cutter.{Cutting, IsPart};
ghost use Rattle.autfmt.specs.Gathering.{Gathers, Advances, Peeks};

use crate::line::LineBuffer;
use crate::source::Source;
use crate::stream::Broken;
use memchr::memchr;
use std::marker::Model;

/// The size of a chunk: the largest number of bytes that one call takes from a source (the object from which the input
/// is read).
const CHUNK: usize = 4096;

/// The result of `Cutter::advance`, which splits off the next line.
#[derive(Clone, Copy)]
pub(crate) enum Step {
    /// The next line was split off. This line has at most 8192 bytes.
    Line,
    /// The next line has more than 8192 bytes. The end of the line may not have been read yet.
    TooLong,
    /// The input has ended.
    End,
}

/// The result of the function `gather`, which takes chunks of bytes from the source (the object from which the input is
/// read) until a line ends.
#[derive(Clone, Copy)]
pub(crate) enum Found {
    /// The bytes that were last read from the input contain a line feed. These bytes are stored at the beginning of the
    /// chunk. The two numbers are the index of the first line feed in the chunk, and the number of the bytes that were
    /// last read.
    Feed(usize, usize),
    /// The line has more than 8192 bytes.
    TooLong,
    /// The source (the object from which the input is read) has ended.
    End,
}

/// The line splitter, which divides the bytes of an input into lines. The first `to` bytes of the array `chunk` are the
/// bytes that were last read from the input. The next line begins at the index `from` of this array. If `span` is a
/// range (a start index and an end index), the line that was split off last is this range of `chunk`. If `span` is
/// `None`, this line is in `buffer`. The field `over` is true if the input has ended.
#[derive(Drop)]
pub(crate) struct Cutter {
    chunk: [u8; CHUNK],
    from: usize,
    to: usize,
    buffer: LineBuffer,
    span: Option<(usize, usize)>,
    over: bool,
}

impl Model for Cutter {
    ghost use Rattle.std.specs.Prelude.{ℕ, ◌≡◌, IsTrue, IfSome};
    ghost use Rattle.std.specs.List.{slice_range};
    ghost use Rattle.autfmt.specs.Cutter.{Cutting, cut_line, IsCutter};

    ghost Value = { Cutting };

    ghost view = { λ c. record {
      line = cut_line c.span c.chunk c.buffer;
      ahead = slice_range c.chunk c.from c.to;
      over = c.over;
    } };

    ghost invariant = { λ c. IsCutter c.from c.to c.span c.over };
}

impl Cutter {
    /// Makes a line splitter that has not read any bytes yet.
    pub(crate) fn new() -> Cutter
        ensures { result ≡ record { line = []; ahead = []; over = false } }
    {
        Cutter {
            chunk: [0; CHUNK],
            from: 0,
            to: 0,
            buffer: LineBuffer::new(),
            span: None,
            over: false,
        }
    }

    /// Returns the line that was split off last.
    pub(crate) fn line(&self) -> &[u8]
        ensures { result.now ≡ self.now.line }
    {
        match self.span {
            Some((start, end)) => &self.chunk[start..end],
            None => self.buffer.line(),
        }
    }

    /// Returns the bytes that were read from the input but not yet divided into lines. These bytes are stored in the
    /// chunk at the indices i with from <= i < to.
    #[inline(always)]
    pub(crate) fn ahead(&self) -> &[u8]
        ensures { result.now ≡ self.now.ahead }
    {
        &self.chunk[self.from..self.to]
    }

    /// Skips the next line. This line must end within the bytes that `ahead` returns, which were read from the input
    /// but not yet divided into lines. The argument `left` is the number of bytes that follow the line feed of this
    /// line in the result of `ahead`. The call does not change the result of `line`.
    #[inline(always)]
    pub(crate) fn pass(&mut self, left: usize)
        requires { left < length self.old.ahead }
        ensures passed { (line rest : List ℕ) → self.old.ahead ≡ line ++ 10 ∷ rest →
            left ≡ length rest
            → self.new ≡ record { line = self.old.line; ahead = rest; over = false } }
        ensures open { self.old.over ≡ false }
    {
        self.from = self.to - left;
    }

    /// Splits off the next line of the input. If the end of this line has not been read yet, the function reads further
    /// bytes from the input.
    pub(crate) fn advance<R: Source>(&mut self, r: &mut R) -> Result<Step, Broken>
        requires { R.failures r.old ≡ 0 }
        ensures step { (got : List ℕ) × Consumes (R.rest r.old) (R.rest r.new) got ×
            Advances self.old.over (self.old.ahead ++ got) result self.new }
        ensures end { (IsTrue self.old.over → IsAtEnd (R.rest r.old)) →
            IsTrue self.new.over → IsAtEnd (R.rest r.new) }
        ensures failures { CountsFailure result (R.failures r.new) }
    {
        if self.over {
            return Ok(Step::End);
        }
        let ahead = &self.chunk[self.from..self.to];
        if let Some(at) = line_feed_in(ahead) {
            self.span = Some((self.from, self.from + at));
            self.from += at + 1;
            return Ok(Step::Line);
        }
        self.put_together(r)
    }

    /// Splits off the next line if the end of this line has not been read yet. The function reads further chunks of
    /// bytes from the source (the object from which the input is read), and copies the line to the buffer.
    fn put_together<R: Source>(&mut self, r: &mut R) -> Result<Step, Broken>
        requires open { self.old.over ≡ false }
        requires one { IsOneLine self.old.ahead }
        requires sound { R.failures r.old ≡ 0 }
        ensures step { (got : List ℕ) × Consumes (R.rest r.old) (R.rest r.new) got ×
            Advances false (self.old.ahead ++ got) result self.new }
        ensures end { IsTrue self.new.over → IsAtEnd (R.rest r.new) }
        ensures failures { CountsFailure result (R.failures r.new) }
    {
        let (from, to) = (self.from, self.to);
        self.span = None;
        self.from = to;
        let Cutter { chunk, buffer, .. } = self;
        buffer.clear();
        let _fits = buffer.extend(&chunk[from..to]);
        match gather(chunk, buffer, r)? {
            Found::Feed(at, end) => {
                self.from = at + 1;
                self.to = end;
                Ok(Step::Line)
            }
            Found::TooLong => Ok(Step::TooLong),
            Found::End => {
                self.over = true;
                let none = self.buffer.line().is_empty();
                Ok(if none { Step::End } else { Step::Line })
            }
        }
    }

    /// Returns whether the input ends after the lines that were split off so far. If all bytes that were read have been
    /// divided into lines, the function tries to read further bytes from the input. In this case, the result of `line`
    /// may change.
    pub(crate) fn is_at_end<R: Source>(&mut self, r: &mut R) -> Result<bool, Broken>
        requires { R.failures r.old ≡ 0 }
        ensures look { (got : List ℕ) × Consumes (R.rest r.old) (R.rest r.new) got ×
            Peeks self.old.over (self.old.ahead ++ got) result self.new }
        ensures end { (IsTrue self.old.over → IsAtEnd (R.rest r.old)) →
            IsTrue self.new.over → IsAtEnd (R.rest r.new) }
        ensures failures { CountsFailure result (R.failures r.new) }
    {
        if self.from < self.to {
            return Ok(false);
        }
        if self.over {
            return Ok(true);
        }
        let n = r.take(&mut self.chunk)?;
        self.from = 0;
        self.to = n;
        self.over = n == 0;
        Ok(n == 0)
    }
}

/// Returns the index of the first line feed in the bytes.
fn line_feed_in(bytes: &[u8]) -> Option<usize>
    ensures within { IfSome result (λ at. at < length bytes.now) }
    ensures line { IfSome result (λ at. IsOneLine (take at bytes.now)) }
    ensures feed { IfSome result (λ at. drop at bytes.now ≡ 10 ∷ drop (at + 1) bytes.now) }
    ensures none { IfNone result (IsOneLine bytes.now) }
{
    memchr(b'\n', bytes)
}

/// Completes a line whose first bytes are in the buffer. The function takes chunks of bytes from the source (the object
/// from which the input is read) until the line ends, and appends the remaining bytes of the line to the buffer.
fn gather<R: Source>(chunk: &mut [u8], buffer: &mut LineBuffer, r: &mut R) -> Result<Found, Broken>
    requires room { length chunk.old ≡ CHUNK }
    requires part { IsPart buffer.old }
    requires sound { R.failures r.old ≡ 0 }
    ensures got { (got : List ℕ) × Consumes (R.rest r.old) (R.rest r.new) got ×
        Gathers (buffer.old ++ got) result buffer.new chunk.new }
    ensures end { result ≡ Ok Found.End → IsAtEnd (R.rest r.new) }
    ensures failures { CountsFailure result (R.failures r.new) }
{
    loop {
        let n = r.take(chunk)?;
        if n == 0 {
            return Ok(Found::End);
        }
        let bytes = &chunk[..n];
        match line_feed_in(bytes) {
            Some(at) => {
                if buffer.extend(&bytes[..at]) {
                    return Ok(Found::Feed(at, n));
                }
                return Ok(Found::TooLong);
            }
            None => {
                if !buffer.extend(bytes) {
                    return Ok(Found::TooLong);
                }
            }
        }
    }
}
