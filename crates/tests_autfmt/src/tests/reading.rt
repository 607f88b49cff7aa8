//! Functions that run examples. Other files in this folder define the examples, and call these functions. These
//! functions read inputs in chunks of several sizes. Then they check the error that reading returns, or they write the
//! system that was read, and check the output.
use autfmt::{
    Fault, Hidden, Limits, Sink, SliceSource, VecSink, read, read_hidden, read_hiding, write,
};
use lts::{Counter, Lts, Meter};
use std::alloc::Global;
use std::test::Fail;
use test_support::check;

/// An example: its name, its input, and the expected error.
pub(crate) type Faulty = (&'static str, &'static [u8], Fault);

/// An example: its name, its input, its hide list (the labels to hide), and the expected output.
pub(crate) type Written = (&'static str, &'static [u8], &'static [u8], &'static [u8]);

/// The tested chunk sizes. Each input is read once for each of these sizes, in chunks of this size.
pub(crate) const SIZES: [usize; 7] = [1, 2, 3, 7, 4095, 4096, 4097];

/// Returns the system that the input describes. The input is read in chunks of `k` bytes from a source (the object from
/// which the input is read) that fails after `place` bytes.
fn system_of(
    alloc: Global,
    text: &[u8],
    place: Option<usize>,
    lim: &Limits,
    k: usize,
) -> Result<Lts<Counter>, Fault> {
    let mut source = SliceSource::new(text, place).pieces(k.max(1));
    read(alloc, &mut source, lim)
}

/// Fails unless reading the input ends with the error `wanted`. The input is read in chunks of each tested size.
pub(crate) fn check_fault(
    alloc: Global,
    name: &str,
    text: &[u8],
    place: Option<usize>,
    lim: &Limits,
    wanted: Option<Fault>,
) -> Result<(), Fail> {
    for k in SIZES {
        let found = system_of(alloc, text, place, lim, k).err();
        check(name, found == wanted)?;
    }
    Ok(())
}

/// Each entry of the table contains an input, and the error that reading this input must return. The function reads
/// each input with the limits `lim` (the largest allowed sizes). It fails if reading an input does not return the error
/// in its entry.
pub(crate) fn check_faults(alloc: Global, lim: &Limits, table: &[Faulty]) -> Result<(), Fail> {
    for (name, text, fault) in table {
        check_fault(alloc, name, text, None, lim, Some(*fault))?;
    }
    Ok(())
}

/// Returns the labels of the hide list (the list of labels to hide). The list is read in chunks of `k` bytes from a
/// source (the object from which the hide list is read) that fails after `place` bytes.
pub(crate) fn hidden_by(
    alloc: Global,
    list: &[u8],
    place: Option<usize>,
    k: usize,
) -> Result<Hidden, Fault> {
    let mut source = SliceSource::new(list, place).pieces(k.max(1));
    read_hidden(alloc, &mut source)
}

/// Returns the system that the input describes, after hiding the labels of the hide list. The input and the list are
/// read in chunks of `k` bytes.
pub(crate) fn hiding(
    alloc: Global,
    text: &[u8],
    list: &[u8],
    k: usize,
) -> Result<Lts<Counter>, Fault> {
    let hidden = hidden_by(alloc, list, None, k)?;
    let mut source = SliceSource::new(text, None).pieces(k.max(1));
    read_hiding(alloc, &mut source, &Limits::file(), &hidden)
}

/// Writes the system `s` to the sink (the object to which the output is written). Returns the result of `write`, and
/// the number of visits (reads of transitions) that `write` made. If the precondition of `write` does not hold, `write`
/// is not called, and the result is an error that `write` never returns.
pub(crate) fn answer<W: Sink>(
    alloc: Global,
    s: &Lts<Counter>,
    sink: &mut W,
) -> (Result<(), Fault>, u128) {
    let mut m = Counter::new();
    if !m.has_room(0, u128::from(s.edges())) || sink.failures() != 0 {
        return (Err(Fault::BadHeader), 0);
    }
    let answer = write(alloc, s, &mut m, sink);
    (answer, m.visits())
}

/// Writes the system to a sink (the object to which the output is written) that accepts at most `k` bytes in one call.
/// Returns whether writing succeeds and the output is `wanted`.
fn is_written(alloc: Global, system: &Lts<Counter>, k: usize, wanted: &[u8]) -> bool {
    let mut sink = VecSink::new(alloc, None).pieces(k.max(1));
    let (answer, _) = answer(alloc, system, &mut sink);
    answer.is_ok() && sink.bytes() == wanted
}

/// Reads the input, hides the labels of the hide list, and writes the resulting system. Returns whether all this
/// succeeds and the output is `wanted`.
fn is_rewritten(alloc: Global, text: &[u8], list: &[u8], k: usize, wanted: &[u8]) -> bool {
    match hiding(alloc, text, list, k) {
        Ok(system) => is_written(alloc, &system, k, wanted),
        Err(_) => false,
    }
}

/// Reads the input, hides the labels of the hide list, and writes the resulting system. Fails unless the output is
/// `wanted`. The input and the hide list are read in chunks of each tested size.
pub(crate) fn check_written(
    alloc: Global,
    name: &str,
    text: &[u8],
    list: &[u8],
    wanted: &[u8],
) -> Result<(), Fail> {
    for k in SIZES {
        check(name, is_rewritten(alloc, text, list, k, wanted))?;
    }
    Ok(())
}

/// Reads each input in the table and writes the resulting system. Fails unless each output is the expected output.
pub(crate) fn check_all_written(alloc: Global, table: &[Written]) -> Result<(), Fail> {
    for (name, text, list, wanted) in table {
        check_written(alloc, name, text, list, wanted)?;
    }
    Ok(())
}
