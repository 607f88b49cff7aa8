//! A sink is the object to which the output is written. This module defines a trait for sinks, a sink in memory, and a
//! sink that wraps any writer of the standard library.
ghost use Rattle.std.specs.Prelude.{◌≡◌, ℕ, ◌<◌, ◌≤◌, ◌↔◌, List, [], length, take, None, Some, IfSome, IsErr, IfOk};
ghost use Rattle.std.specs.Prelude.{OnOk, OnErr, if◌then◌else◌, Option};
ghost use Rattle.std.specs.Io.{WritesAtMost};
ghost use Rattle.std.specs.Io.KnownBytes.{Appends, Keeps, WriteAppends};
ghost use Rattle.autfmt.specs.Stream.{AppendsPrefix, CountsFailure};
ghost use Rattle.autfmt.specs.Pieces.{Wrapped};
ghost use Rattle.autfmt.specs.Store.{Store, taken_count, after_put};

use crate::stream::{Broken, at_most};
use std::alloc::Global;
use std::io::Write;
use std::marker::Model;

/// A sink is the object to which the output is written. The sink accepts the bytes of the output in chunks. After its
/// first failure, a sink must not be used again.
pub trait Sink {
    // The bytes that were written to the sink (the object to which the output is written). The value is `None` if the
    // contract of the sink does not state these bytes.
    ghost written: { Self → Option (List ℕ) };

    // The number of times that the sink (the object to which the output is written) has failed so far.
    ghost failures: { Self → ℕ };

    /// Writes a prefix of `b` to the sink (the object to which the output is written). Returns the number of bytes that
    /// were written, which is at least 1.
    ///
    /// # Errors
    ///
    /// If the sink fails, the result is `Broken`. In this case, nothing was written. After this error, the value of
    /// `failures` is 1.
    fn put(&mut self, b: &[u8]) -> Result<usize, Broken>
        requires bytes { 0 < length b.now }
        requires sound { failures self.old ≡ 0 }
        ensures progress { IfOk result (λ n. 1 ≤ n) }
        ensures bound { WritesAtMost result b.now }
        ensures bytes { WriteAppends (written self.old) (written self.new) result b.now }
        ensures failures { CountsFailure result (failures self.new) };

    /// Flushes the sink (the object to which the output is written), so that it passes on all bytes that it has
    /// buffered. This call adds no further bytes to the output.
    ///
    /// # Errors
    ///
    /// If the sink fails, the result is `Broken`. After this error, the value of `failures` is 1.
    fn finish(&mut self) -> Result<(), Broken>
        requires { failures self.old ≡ 0 }
        ensures bytes { Keeps (written self.old) (written self.new) }
        ensures failures { CountsFailure result (failures self.new) };

    /// Returns the number of times that the sink (the object to which the output is written) has failed so far, which
    /// is 0 or 1.
    fn failures(&self) -> u32
        ensures failures { result ≡ failures self.now }
        ensures range { result ≤ 1 };
}

/// A sink (the object to which the output is written) that stores its bytes in memory. A caller can choose the number
/// of bytes after which the sink fails.
#[derive(Drop)]
pub struct VecSink {
    bytes: Vec<u8>,
    count: Option<usize>,
    most: Option<usize>,
    failed: bool,
}

impl Model for VecSink {
    ghost Value = { Store };

    ghost view = { λ s. record {
      bytes = s.bytes.items;
      count = s.count;
      most = s.most;
      failures = (if s.failed then 1 else 0);
    } };

    ghost invariant = { λ s. IfSome s.most (λ k. 1 ≤ k)
        × IfSome s.count (λ c. length s.bytes.items ≤ c) };
}

impl VecSink {
    /// Makes an empty sink (the object to which the output is written) that accepts up to `count` bytes. Once the sink
    /// contains `count` bytes, the next call of `put` or `finish` fails. If `count` is `None`, the sink accepts any
    /// number of bytes, unless an allocation fails.
    pub fn new(alloc: Global, count: Option<usize>) -> VecSink
        ensures { result ≡ record { bytes = []; count = count; most = None; failures = 0 } }
    {
        VecSink {
            bytes: Vec::new(alloc),
            count,
            most: None,
            failed: false,
        }
    }

    /// Returns the bytes that were written to the sink.
    pub fn bytes(&self) -> &[u8]
        ensures { result.now ≡ self.now.bytes }
    {
        self.bytes.as_slice()
    }

    /// Returns this sink (the object to which the output is written) with a restriction: each call of `put` writes at
    /// most `k` bytes.
    pub fn pieces(self, k: usize) -> VecSink
        requires { 1 ≤ k }
        ensures { result ≡ record self { most = Some k } }
    {
        let VecSink {
            bytes,
            count,
            most: _,
            failed,
        } = self;
        VecSink {
            bytes,
            count,
            most: Some(k),
            failed,
        }
    }
}

impl Sink for VecSink {
    ghost written = { λ s. Some s.bytes };

    ghost failures = { λ s. s.failures };

    fn put(&mut self, b: &[u8]) -> Result<usize, Broken>
        requires bytes { 0 < length b.now }
        requires sound { self.old.failures ≡ 0 }
        ensures progress { IfOk result (λ n. 1 ≤ n) }
        ensures bound { WritesAtMost result b.now }
        ensures bytes { WriteAppends (Some self.old.bytes) (Some self.new.bytes) result b.now }
        ensures failures { CountsFailure result self.new.failures }
        ensures full { self.old.count ≡ Some (length self.old.bytes) → IsErr result }
        ensures count { IfOk result (λ n. n ≡ taken_count self.old (length b.now)) }
        ensures after { IfOk result (λ n. self.new ≡ after_put self.old (take n b.now)) }
        ensures err { OnErr result (self.new ≡ record self.old { failures = 1 }) }
    {
        let len = self.bytes.len();
        let room = match self.count {
            Some(count) => Some(count - len),
            None => None,
        };
        let n = at_most(self.most, at_most(room, b.len()));
        if n == 0 || self.bytes.extend_from_slice(&b[..n]).is_err() {
            self.failed = true;
            return Err(Broken);
        }
        Ok(n)
    }

    fn finish(&mut self) -> Result<(), Broken>
        requires { self.old.failures ≡ 0 }
        ensures bytes { Keeps (Some self.old.bytes) (Some self.new.bytes) }
        ensures failures { CountsFailure result self.new.failures }
        ensures full { IsErr result ↔ (self.old.count ≡ Some (length self.old.bytes)) }
        ensures ok { OnOk result (self.new ≡ self.old) }
        ensures err { OnErr result (self.new ≡ record self.old { failures = 1 }) }
    {
        if self.count == Some(self.bytes.len()) {
            self.failed = true;
            return Err(Broken);
        }
        Ok(())
    }

    fn failures(&self) -> u32 {
        u32::from(self.failed)
    }
}

/// A sink (the object to which the output is written) that wraps a writer of the standard library. The sink fails if
/// the writer returns an error, or if the writer writes 0 bytes.
#[derive(Drop)]
pub struct ToWrite<W> {
    writer: W,
    failed: bool,
}

impl<W> Model for ToWrite<W> {
    ghost Value = { Wrapped W };

    ghost view = { λ s. record { inner = s.writer; failures = (if s.failed then 1 else 0) } };
}

impl<W: Write> ToWrite<W> {
    /// Makes a sink that writes to `writer`. If the contract of `writer` states which bytes were written to the writer,
    /// then the contract of the sink states which bytes were written to the sink.
    pub fn new(writer: W) -> ToWrite<W>
        ensures { result ≡ record { inner = writer; failures = 0 } }
    {
        ToWrite {
            writer,
            failed: false,
        }
    }
}

impl<W: Write> Sink for ToWrite<W> {
    ghost written = { λ s. W.contents s.inner };

    ghost failures = { λ s. s.failures };

    fn put(&mut self, b: &[u8]) -> Result<usize, Broken> {
        match self.writer.write(b) {
            Ok(n) if n > 0 => Ok(n),
            _ => {
                self.failed = true;
                Err(Broken)
            }
        }
    }

    /// Flushes the writer.
    fn finish(&mut self) -> Result<(), Broken> {
        match self.writer.flush() {
            Ok(()) => Ok(()),
            Err(_) => {
                self.failed = true;
                Err(Broken)
            }
        }
    }

    fn failures(&self) -> u32 {
        self.failed.into()
    }
}

/// Writes all bytes of `b` to the sink (the object to which the output is written). The function calls `put` until no
/// bytes of `b` remain.
///
/// # Errors
///
/// If the sink fails, the result is `Broken`. In this case a prefix of `b` was written.
pub fn put_all<W: Sink>(w: &mut W, b: &[u8]) -> Result<(), Broken>
    requires { W.failures w.old ≡ 0 }
    ensures ok { OnOk result (Appends (W.written w.old) (W.written w.new) b.now) }
    ensures err { OnErr result (AppendsPrefix (W.written w.old) (W.written w.new) b.now) }
    ensures failures { CountsFailure result (W.failures w.new) }
{
    let mut rest = b;
    while !rest.is_empty() {
        let n = w.put(rest)?;
        rest = &rest[n..];
    }
    Ok(())
}
