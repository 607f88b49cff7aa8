//! Runs two examples. In the first example, each of two inputs has an error in line 1. The reader finds these errors
//! without allocating memory. In the second example, the output is written to a sink that stores its bytes in memory,
//! and that allocates memory twice. A sink is an object to which an output is written.
use crate::ending::Ending;
use autfmt::{Fault, Limits, Sink, SliceSource, VecSink, put_all, read};
use lts::{Counter, Lts};
use std::alloc::Global;
use test_support::STEP;

const LONG: [u8; 10_000] = [b'x'; 10_000];

/// Runs both examples. The name of the first example is `header-fault-needs-no-memory`. The result is `Wrong` if an
/// example ended with an incorrect result. Otherwise, the result is `Refused` if an allocation failed, and `Wanted` if
/// both examples ended with the expected result.
pub(crate) fn ending(alloc: Global) -> Ending {
    let long = is_fault(alloc, &LONG, Fault::LineTooLong(1));
    let none = is_fault(alloc, b"des (0,0,0)\n", Fault::NoStates);
    Ending::wanted_if(long && none).and(of_sink(alloc))
}

/// Returns whether the reader returns the error `fault` for the input. The reader must return the error even if every
/// allocation fails.
fn is_fault(alloc: Global, text: &[u8], fault: Fault) -> bool {
    let mut source = SliceSource::new(text, None);
    let read: Result<Lts<Counter>, Fault> = read(alloc, &mut source, &Limits::file());
    read.err() == Some(fault)
}

/// Writes to a sink (the object to which the output is written) that stores its bytes in memory. Returns `Wanted` if
/// the sink has stored all bytes. Returns `Refused` if an allocation failed, and the sink still contains exactly the
/// bytes of the earlier writes. In all other cases, the result is `Wrong`.
fn of_sink(alloc: Global) -> Ending {
    let mut sink = VecSink::new(alloc, None);
    let Ok(()) = put_all(&mut sink, STEP) else {
        return Ending::refused_if(sink.failures() == 1 && sink.bytes().is_empty());
    };
    let Ok(()) = put_all(&mut sink, &LONG) else {
        return Ending::refused_if(sink.failures() == 1 && sink.bytes() == STEP);
    };
    Ending::wanted_if(sink.failures() == 0 && sink.bytes().len() == 10_024)
}
