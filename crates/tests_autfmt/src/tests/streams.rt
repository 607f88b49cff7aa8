//! Tests of the line buffer, of sources, and of sinks. Some sources and sinks are in memory, and others use readers and
//! writers of the standard library. A source is an object from which an input is read, and a sink is an object to which
//! an output is written.
ghost use Rattle.std.specs.Prelude.{◌≡◌};

use autfmt::{FromRead, LineBuffer, Sink, SliceSource, Source, ToWrite, VecSink, put_all};
use std::alloc::{AllocError, Global};
use std::io;
use std::io::{Error, ErrorKind, Read, Write};
use std::test::Fail;
use test_support::check;

const TEXT: &[u8] = b"des (0,2,3)\n(0,a,1)\n(0,a,2)\n";

/// Adds `count` bytes to the line buffer. Returns true if the line buffer has room for all of these bytes, and false
/// otherwise.
fn takes_bytes(line: &mut LineBuffer, count: usize) -> bool {
    for _ in 0..count {
        if !line.push(b'a') {
            return false;
        }
    }
    true
}

#[test]
fn full_line_buffer(_rt: HostRuntime) -> Result<(), Fail> {
    let mut line = LineBuffer::new();
    check("full-line-buffer", takes_bytes(&mut line, 8192))?;
    check("a byte more", !line.push(b'b') && line.line().len() == 8192)?;
    line.clear();
    check(
        "cleared",
        takes_bytes(&mut line, 2) && line.line() == b"aa".as_slice(),
    )
}

/// Appends to `all` the bytes that the source `r` (the object from which the input is read) returns, until the source
/// ends or fails. Each call takes at most five bytes from the source.
fn drain<R: Source>(r: &mut R, all: &mut Vec<u8>) -> Result<(), AllocError> {
    let mut piece = [0u8; 5];
    for _ in 0..1000 {
        if r.failures() != 0 {
            return Ok(());
        }
        let n = r.take(&mut piece).unwrap_or(0);
        all.extend_from_slice(&piece[..n])?;
    }
    Ok(())
}

/// Reads from the source `r` (the object from which the input is read) until the source ends or fails. Returns true if
/// the source returned exactly the bytes `wanted`, and then reports `failures` failures.
fn is_drained<R: Source>(
    alloc: Global,
    r: &mut R,
    wanted: &[u8],
    failures: u32,
) -> Result<bool, AllocError> {
    let mut all = Vec::new(alloc);
    drain(r, &mut all)?;
    Ok(all.as_slice() == wanted && r.failures() == failures)
}

/// Reads the text `TEXT` from a source (the object from which the input is read) that fails after `place` bytes.
/// Returns true if the source returned exactly the bytes `wanted`, and then reports `failures` failures.
fn gives(
    alloc: Global,
    place: Option<usize>,
    most: usize,
    wanted: &[u8],
    failures: u32,
) -> Result<bool, AllocError> {
    let mut source = SliceSource::new(TEXT, place).pieces(most.max(1));
    is_drained(alloc, &mut source, wanted, failures)
}

const SIZES: [usize; 5] = [1, 2, 3, 7, 4096];

#[test]
fn a_slice_gives_its_bytes_up_to_the_place(rt: HostRuntime) -> Result<(), Fail> {
    for most in SIZES {
        for (place, _) in TEXT.iter().enumerate() {
            let wanted = &TEXT[..place];
            check("a slice", gives(rt.alloc(), Some(place), most, wanted, 1)?)?;
        }
    }
    Ok(())
}

#[test]
fn a_slice_gives_all_its_bytes(rt: HostRuntime) -> Result<(), Fail> {
    for most in SIZES {
        check("a slice", gives(rt.alloc(), None, most, TEXT, 0)?)?;
        check("a slice", gives(rt.alloc(), Some(28), most, TEXT, 1)?)?;
        check("a slice", gives(rt.alloc(), Some(29), most, TEXT, 0)?)?;
    }
    Ok(())
}

/// Returns the number of bytes that the first call of `take` returns. The source (the object from which the input is
/// read) returns at most `most` bytes in one call.
fn first_taken(most: usize) -> usize {
    let mut source = SliceSource::new(TEXT, None).pieces(most.max(1));
    source.take(&mut [0u8; 64]).unwrap_or(0)
}

#[test]
fn a_slice_gives_pieces(_rt: HostRuntime) -> Result<(), Fail> {
    for most in SIZES {
        check("a piece", first_taken(most) == most.min(28))?;
    }
    Ok(())
}

/// Writes the whole text to the sink (the object to which the output is written). Returns true if the sink accepts the
/// text without a failure, and `finish` then succeeds.
fn fills<W: Sink>(sink: &mut W) -> bool
    requires { W.failures sink.old ≡ 0 }
{
    put_all(sink, TEXT).is_ok() && sink.failures() == 0 && sink.finish().is_ok()
}

/// Writes the text to a sink (the object to which the output is written) that fails after `count` bytes. Returns true
/// if the sink accepts exactly the bytes `wanted`, and reports `failures` failures after `finish`.
fn takes(alloc: Global, count: Option<usize>, most: usize, wanted: &[u8], failures: u32) -> bool {
    let mut sink = VecSink::new(alloc, count).pieces(most.max(1));
    let done = fills(&mut sink);
    done == (failures == 0) && sink.bytes() == wanted && sink.failures() == failures
}

#[test]
fn a_vec_sink_takes_bytes_up_to_the_count(rt: HostRuntime) -> Result<(), Fail> {
    for most in SIZES {
        for (count, _) in TEXT.iter().enumerate() {
            let wanted = &TEXT[..count];
            check("a sink", takes(rt.alloc(), Some(count), most, wanted, 1))?;
        }
    }
    Ok(())
}

/// A sink is an object to which an output is written. If a sink has room for exactly the bytes of the text, it accepts
/// all these bytes, and fails only when `finish` is called.
#[test]
fn a_vec_sink_takes_all_bytes(rt: HostRuntime) -> Result<(), Fail> {
    for most in SIZES {
        check("a sink", takes(rt.alloc(), None, most, TEXT, 0))?;
        check("a sink", takes(rt.alloc(), Some(28), most, TEXT, 1))?;
        check("a sink", takes(rt.alloc(), Some(29), most, TEXT, 0))?;
    }
    Ok(())
}

#[test]
fn a_reader_gives_its_bytes(rt: HostRuntime) -> Result<(), Fail> {
    let mut reader = FromRead::new(TEXT);
    check("a reader", is_drained(rt.alloc(), &mut reader, TEXT, 0)?)
}

/// Writes `bytes` to a sink (the object to which the output is written) that passes them on to `writer`. Returns
/// whether all bytes were written, and the number of times that the sink has failed.
fn put<W: Write>(writer: &mut W, bytes: &[u8]) -> (bool, u32) {
    let mut sink = ToWrite::new(writer);
    let put = put_all(&mut sink, bytes);
    (put.is_ok(), sink.failures())
}

#[test]
fn a_writer_takes_its_bytes(rt: HostRuntime) -> Result<(), Fail> {
    let mut out = Vec::new(rt.alloc());
    let (done, failures) = put(&mut out, TEXT);
    check("a writer", done && failures == 0 && out.as_slice() == TEXT)
}

/// A reader that returns one byte for each read. After it has returned `left` bytes, one read is interrupted.
#[derive(Drop)]
struct Faltering {
    left: u32,
}

impl Read for Faltering {
    fn read(&mut self, buf: &mut [u8]) -> io::Result<usize> {
        if self.left == 0 {
            self.left = u32::MAX;
            return Err(Error::from(ErrorKind::Interrupted));
        }
        self.left -= 1;
        match buf.first_mut() {
            Some(first) => {
                *first = b'a';
                Ok(1)
            }
            None => Ok(0),
        }
    }
}

#[test]
fn a_failed_read_is_not_tried_again(rt: HostRuntime) -> Result<(), Fail> {
    let mut reader = FromRead::new(Faltering { left: 3 });
    check(
        "a failed read",
        is_drained(rt.alloc(), &mut reader, b"aaa", 1)?,
    )
}

/// A writer that has room for `room` more bytes, and accepts at most two bytes in each write. Suppose that `room` is 0.
/// Then the next write returns an error if `fails` is true, and accepts no bytes if `fails` is false. After such a
/// write, the writer has room again. The writer counts its flushes. If `fails` is true, its first flush is interrupted.
#[derive(Drop)]
struct Tight {
    room: usize,
    fails: bool,
    flushes: u32,
}

impl Write for Tight {
    fn write(&mut self, buf: &[u8]) -> io::Result<usize> {
        if self.room == 0 {
            self.room = 100;
            return if self.fails {
                Err(Error::from(ErrorKind::Interrupted))
            } else {
                Ok(0)
            };
        }
        let n = buf.len().min(self.room).min(2);
        self.room -= n;
        Ok(n)
    }

    fn flush(&mut self) -> io::Result<()> {
        self.flushes = self.flushes.saturating_add(1);
        if self.fails && self.flushes == 1 {
            Err(Error::from(ErrorKind::Interrupted))
        } else {
            Ok(())
        }
    }
}

/// Returns a writer that has room for five bytes and has not been flushed.
fn with_room(fails: bool) -> Tight {
    Tight {
        room: 5,
        fails,
        flushes: 0,
    }
}

/// Fails unless the sink (the object to which the output is written) writes five bytes, then fails at the next byte,
/// and never flushes the writer.
fn check_tight(fails: bool) -> Result<(), Fail> {
    let mut tight = with_room(fails);
    check("five bytes", put(&mut tight, b"abcde") == (true, 0))?;
    check("a byte more", put(&mut tight, b"f") == (false, 1))?;
    check("no flush", tight.flushes == 0)
}

#[test]
fn a_write_of_no_bytes_is_a_failure(_rt: HostRuntime) -> Result<(), Fail> {
    check_tight(false)
}

#[test]
fn a_write_error_is_a_failure(_rt: HostRuntime) -> Result<(), Fail> {
    check_tight(true)
}

/// Calls `finish` of a sink (the object to which the output is written). Returns whether the call succeeds, the number
/// of times that the sink has failed, and the number of flushes of the writer.
fn finished(fails: bool) -> (bool, u32, u32) {
    let mut tight = with_room(fails);
    let mut sink = ToWrite::new(&mut tight);
    let done = sink.finish().is_ok();
    let failures = sink.failures();
    (done, failures, tight.flushes)
}

#[test]
fn finish_flushes_the_writer(_rt: HostRuntime) -> Result<(), Fail> {
    check("flushed", finished(false) == (true, 0, 1))?;
    check("a failed flush", finished(true) == (false, 1, 1))
}
