//! Functions that run examples. Other files in this folder define the examples, and call these functions. These
//! functions minimise inputs, and check that each minimisation ends with the expected error, if any, and with the
//! expected output. Sources (objects from which an input is read) and sinks (objects to which the output is written)
//! may fail.
use autbis::{Counts, run_min};
use autfmt::{Fault, Hidden, Limits, SliceSource, VecSink, read_hidden};
use lts::{Counter, Meter};
use quotient::Relation;
use std::alloc::Global;
use std::test::Fail;
use test_support::check;

/// An example: its name, its input, and the expected output.
pub(crate) type Written = (&'static str, &'static [u8], &'static [u8]);

/// The way in which a minimisation ends: its error, or `None` if it succeeds, and its output.
pub(crate) type End<'a> = (Option<Fault>, &'a [u8]);

/// The result of a minimisation, its output, and the meter, which has counted its rounds and visits (reads of
/// transitions).
pub(crate) type Ran = (Result<Counts, Fault>, VecSink, Counter);

/// The relation of a minimisation, the number of bytes after which its source fails, the number of bytes after which
/// its sink fails, and the largest number of bytes that the source returns or the sink accepts in one call. The source
/// is the object from which the input is read, and the sink is the object to which the output is written. The number of
/// bytes after which the source or the sink fails is `None` if it never fails.
#[derive(Clone, Copy, Drop)]
pub(crate) struct Flow {
    pub(crate) relation: Relation,
    pub(crate) source: Option<usize>,
    pub(crate) sink: Option<usize>,
    pub(crate) piece: usize,
}

/// Returns a `Flow` whose source (the object from which the input is read) and sink (the object to which the output is
/// written) never fail. The source returns at most `piece` bytes in one call, and the sink accepts at most `piece`
/// bytes in one call.
fn sound(relation: Relation, piece: usize) -> Flow {
    Flow {
        relation,
        source: None,
        sink: None,
        piece,
    }
}

/// Hides the labels in `hidden`, and minimises the input. The argument `at` describes the relation, the source (the
/// object from which the input is read) and the sink (the object to which the output is written).
fn run(alloc: Global, text: &[u8], hidden: &Hidden, at: Flow) -> Ran {
    let mut source = SliceSource::new(text, at.source).pieces(at.piece.max(1));
    let mut sink = VecSink::new(alloc, at.sink).pieces(at.piece.max(1));
    let mut meter = Counter::new();
    let answer = run_min(
        alloc,
        &mut source,
        &mut sink,
        at.relation,
        &Limits::file(),
        hidden,
        &mut meter,
    );
    (answer, sink, meter)
}

/// Returns whether the minimisation of the input `text` ends with the error and the output in `end`.
fn ends(alloc: Global, text: &[u8], hidden: &Hidden, at: Flow, end: End<'_>) -> bool {
    let (answer, sink, _) = run(alloc, text, hidden, at);
    answer.err() == end.0 && sink.bytes() == end.1
}

/// Fails unless the minimisation of the input `text` ends with the error `fault` and the output `out`. No labels are
/// hidden.
pub(crate) fn check_ends(
    alloc: Global,
    name: &str,
    text: &[u8],
    at: Flow,
    fault: Option<Fault>,
    out: &[u8],
) -> Result<(), Fail> {
    let hidden = Hidden::none(alloc);
    check(name, ends(alloc, text, &hidden, at, (fault, out)))
}

/// Fails unless the minimisation of the input, after hiding the labels in `hidden`, ends with the error and the output
/// in `end`. The minimisation is tested twice: with at most 4096 bytes in each read and write, and with one byte in
/// each read and write.
fn check_pieces(
    alloc: Global,
    name: &str,
    text: &[u8],
    hidden: &Hidden,
    relation: Relation,
    end: End<'_>,
) -> Result<(), Fail> {
    for piece in [4096, 1] {
        let at = sound(relation, piece);
        check(name, ends(alloc, text, hidden, at, end))?;
    }
    Ok(())
}

/// Reads the hide list `list` (the labels to hide). Then the function calls `check_pieces`, which checks how the
/// minimisation ends after these labels have been hidden. If the list cannot be read, the expected error is the error
/// that reading the list returns.
pub(crate) fn check_hiding(
    alloc: Global,
    name: &str,
    text: &[u8],
    list: &[u8],
    relation: Relation,
    end: End<'_>,
) -> Result<(), Fail> {
    match read_hidden(alloc, &mut SliceSource::new(list, None)) {
        Ok(hidden) => check_pieces(alloc, name, text, &hidden, relation, end),
        Err(found) => check(name, Some(found) == end.0),
    }
}

/// Fails unless the minimisation succeeds and writes `out`. No labels are hidden.
pub(crate) fn check_written(
    alloc: Global,
    name: &str,
    text: &[u8],
    relation: Relation,
    out: &[u8],
) -> Result<(), Fail> {
    check_hiding(alloc, name, text, b"", relation, (None, out))
}

/// Fails unless the minimisation modulo strong bisimilarity ends with the error `fault` and writes nothing. No labels
/// are hidden.
pub(crate) fn check_fault(
    alloc: Global,
    name: &str,
    text: &[u8],
    fault: Fault,
) -> Result<(), Fail> {
    check_hiding(alloc, name, text, b"", Relation::Strong, (Some(fault), b""))
}

/// Hides the labels in `hidden`, and minimises the input. Neither reading nor writing fails.
pub(crate) fn run_hiding(alloc: Global, text: &[u8], hidden: &Hidden, relation: Relation) -> Ran {
    run(alloc, text, hidden, sound(relation, usize::MAX))
}

/// A visit is a read of a transition that the meter counts. Returns true if the meter has counted exactly `rounds`
/// rounds, at least `rounds * transitions` visits, and at most `most` visits.
pub(crate) fn is_within(meter: &Counter, rounds: u32, transitions: u32, most: u128) -> bool {
    let least = u128::from(rounds) * u128::from(transitions);
    meter.rounds() == u128::from(rounds) && least <= meter.visits() && meter.visits() <= most
}
