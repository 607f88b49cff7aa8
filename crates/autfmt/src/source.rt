//! A source is the object from which the input is read. This module defines a trait for sources, a source in memory,
//! and a source that wraps any reader of the standard library.
ghost use Rattle.std.specs.Prelude.{◌≡◌, ℕ, ◌<◌, ◌≤◌, ◌↔◌, List, length, None, Some, IfSome, IsErr, IfOk, OnErr};
ghost use Rattle.std.specs.Prelude.{if◌then◌else◌, Option};
ghost use Rattle.std.specs.Io.{ReadsAtMost};
ghost use Rattle.std.specs.Io.KnownBytes.{ReadConsumes};
ghost use Rattle.autfmt.specs.Stream.{CountsFailure};
ghost use Rattle.autfmt.specs.Pieces.{Wrapped};
ghost use Rattle.autfmt.specs.Supply.{Supply, next_count, after_take};

use crate::stream::{Broken, at_most};
use std::io::Read;
use std::marker::Model;

/// A source is the object from which the input is read. The source returns the bytes of the input in chunks. After its
/// first failure, a source must not be used again.
pub trait Source {
    // The bytes that are still to be read from the source (the object from which the input is read). The value is
    // `None` if the contract of the source does not state these bytes.
    ghost rest: { Self → Option (List ℕ) };

    // The number of times that the source (the object from which the input is read) has failed so far.
    ghost failures: { Self → ℕ };

    /// Takes the next bytes from the source (the object from which the input is read), and writes them to the beginning
    /// of `buf`. Returns the number of these bytes. This number is 0 only at the end of the source.
    ///
    /// # Errors
    ///
    /// If the source fails, the result is `Broken`. In this case, the source returns no bytes and keeps all bytes that
    /// it has not yet returned. After this error, the value of `failures` is 1.
    fn take(&mut self, buf: &mut [u8]) -> Result<usize, Broken>
        requires room { 0 < length buf.old }
        requires sound { failures self.old ≡ 0 }
        ensures bound { ReadsAtMost result buf.new }
        ensures bytes { ReadConsumes (rest self.old) (rest self.new) result buf.new }
        ensures failures { CountsFailure result (failures self.new) };

    /// Returns the number of times that the source (the object from which the input is read) has failed so far, which
    /// is 0 or 1.
    fn failures(&self) -> u32
        ensures failures { result ≡ failures self.now }
        ensures range { result ≤ 1 };
}

/// A source (the object from which the input is read) whose bytes are in memory. A caller can choose the number of
/// bytes after which the source fails. This type is meant for tests and for inputs that are already in memory.
#[derive(Drop)]
pub struct SliceSource<'a> {
    rest: &'a [u8],
    place: Option<usize>,
    most: Option<usize>,
    failed: bool,
}

impl<'a> Model for SliceSource<'a> {
    ghost Value = { Supply };

    ghost view = { λ s. record {
      rest = s.rest.now;
      place = s.place;
      most = s.most;
      failures = (if s.failed then 1 else 0);
    } };

    ghost invariant = { λ s. IfSome s.most (λ k. 1 ≤ k) };
}

impl<'a> SliceSource<'a> {
    /// Makes a source (the object from which the input is read) with the bytes of `b`. If `place` is a number, the
    /// source returns the bytes of `b` before the index `place`, and then fails. If `place` is `None` or greater than
    /// the length of `b`, the source never fails.
    pub fn new(b: &'a [u8], place: Option<usize>) -> SliceSource<'a>
        ensures { result ≡ record { rest = b.now; place = place; most = None; failures = 0 } }
    {
        SliceSource {
            rest: b,
            place,
            most: None,
            failed: false,
        }
    }

    /// Returns this source (the object from which the input is read) with a restriction: each call of `take` returns at
    /// most `k` bytes.
    pub fn pieces(self, k: usize) -> SliceSource<'a>
        requires { 1 ≤ k }
        ensures { result ≡ record self.entry { most = Some k } }
    {
        SliceSource {
            most: Some(k),
            rest: self.rest,
            place: self.place,
            failed: self.failed,
        }
    }
}

impl<'a> Source for SliceSource<'a> {
    ghost rest = { λ s. Some s.rest };

    ghost failures = { λ s. s.failures };

    fn take(&mut self, buf: &mut [u8]) -> Result<usize, Broken>
        requires room { 0 < length buf.old }
        requires sound { self.old.failures ≡ 0 }
        ensures bound { ReadsAtMost result buf.new }
        ensures bytes { ReadConsumes (Some self.old.rest) (Some self.new.rest) result buf.new }
        ensures failures { CountsFailure result self.new.failures }
        ensures fails { IsErr result ↔ (self.old.place ≡ Some 0) }
        ensures count { IfOk result (λ n. n ≡ next_count self.old (length buf.old)) }
        ensures after { IfOk result (λ n. self.new ≡ after_take self.old n) }
        ensures err { OnErr result (self.new ≡ record self.old { failures = 1 }) }
    {
        if self.place == Some(0) {
            self.failed = true;
            return Err(Broken);
        }
        let all = self.rest;
        let n = at_most(self.most, at_most(self.place, buf.len().min(all.len())));
        buf[..n].copy_from_slice(&all[..n]);
        self.rest = &all[n..];
        if let Some(p) = self.place {
            self.place = Some(p - n);
        }
        Ok(n)
    }

    fn failures(&self) -> u32 {
        u32::from(self.failed)
    }
}

/// A source (the object from which the input is read) that wraps a reader of the standard library. If a call of the
/// reader returns an error, the source fails, and does not repeat the call.
#[derive(Drop)]
pub struct FromRead<R> {
    reader: R,
    failed: bool,
}

impl<R> Model for FromRead<R> {
    ghost Value = { Wrapped R };

    ghost view = { λ s. record { inner = s.reader; failures = (if s.failed then 1 else 0) } };
}

impl<R: Read> FromRead<R> {
    /// Makes a source that takes its bytes from `reader`. If the contract of `reader` states which bytes are still to
    /// be read from it, then the same bytes are still to be read from the source.
    pub fn new(reader: R) -> FromRead<R>
        ensures { result ≡ record { inner = reader; failures = 0 } }
    {
        FromRead {
            reader,
            failed: false,
        }
    }
}

impl<R: Read> Source for FromRead<R> {
    ghost rest = { λ s. R.remaining s.inner };

    ghost failures = { λ s. s.failures };

    fn take(&mut self, buf: &mut [u8]) -> Result<usize, Broken> {
        match self.reader.read(buf) {
            Ok(n) => Ok(n),
            Err(_) => {
                self.failed = true;
                Err(Broken)
            }
        }
    }

    fn failures(&self) -> u32 {
        self.failed.into()
    }
}
