//! A sink is an object to which an output is written. These tests check how `write` behaves if its sink fails, and how
//! often `write` calls `finish`.
use super::reading::{answer, hiding};
use autfmt::{Fault, Sink, VecSink};
use lts::{Counter, Lts};
use std::alloc::Global;
use std::test::Fail;
use test_support::{Counted, STEP, check};

/// Writes the system to a sink (the object to which the output is written) that fails after `count` bytes. Returns true
/// if the sink gets the first `count` bytes of the output, and `write` makes exactly one visit (read of a transition)
/// and returns the error `Device`.
fn fails_at(alloc: Global, s: &Lts<Counter>, count: usize, most: usize) -> bool {
    let mut sink = VecSink::new(alloc, Some(count)).pieces(most.max(1));
    let (answer, visits) = answer(alloc, s, &mut sink);
    answer == Err(Fault::Device)
        && visits == 1
        && sink.failures() == 1
        && sink.bytes() == &STEP[..count.min(24)]
}

/// Calls `fails_at` for every number of bytes after which the sink (the object to which the output is written) may
/// fail.
fn check_ends(alloc: Global, s: &Lts<Counter>, most: usize) -> Result<(), Fail> {
    for count in 0..25 {
        check("failing-ends", fails_at(alloc, s, count, most))?;
    }
    Ok(())
}

/// Calls `check_ends` for sinks (objects to which the output is written) that accept different numbers of bytes in one
/// call.
fn check_all_ends(alloc: Global, s: &Lts<Counter>) -> Result<(), Fail> {
    for most in [1, 5, 100] {
        check_ends(alloc, s, most)?;
    }
    Ok(())
}

#[test]
fn failing_ends(rt: HostRuntime) -> Result<(), Fail> {
    let s = hiding(rt.alloc(), STEP, b"", 4096)?;
    check_all_ends(rt.alloc(), &s)
}

/// Writes the system to a sink (the object to which the output is written). Returns true if `write` makes exactly one
/// visit (read of a transition), and calls the function `finish` of the sink exactly once.
fn finishes_once(alloc: Global, s: &Lts<Counter>) -> bool {
    let mut sink = Counted { finished: 0 };
    let (answer, visits) = answer(alloc, s, &mut sink);
    answer.is_ok() && visits == 1 && sink.finished == 1
}

#[test]
fn never_finishes(rt: HostRuntime) -> Result<(), Fail> {
    let s = hiding(rt.alloc(), STEP, b"", 4096)?;
    check("finished", finishes_once(rt.alloc(), &s))
}
