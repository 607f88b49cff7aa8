//! Compares two systems in memory, and checks how the comparison ended.
use crate::ending::{Ending, has_more, keeps_to};
use autbis::{CmpFault, Side, run_cmp};
use autfmt::{Fault, Hidden, Limits, Sink, SliceSource, VecSink};
use lts::{Counter, Meter};
use quotient::Relation;
use std::alloc::Global;
use test_support::Pair;

/// Two flags, one for each of the two inputs of a comparison. The flag of an input is true if a part of this input has
/// not been read.
type Left = (bool, bool);

/// What is known after a comparison: the result, two flags that say which inputs were not read to their ends, the
/// output, and the meter. The meter has counted the rounds and the visits (reads of transitions).
type Ran = (Result<bool, CmpFault>, Left, VecSink, Counter);

fn run(alloc: Global, pair: &Pair, relation: Relation) -> Ran {
    let mut first = SliceSource::new(pair.first, None);
    let mut second = SliceSource::new(pair.second, None);
    let mut sink = VecSink::new(alloc, None);
    let mut meter = Counter::new();
    let (lim, hidden) = (Limits::file(), Hidden::none(alloc));
    let answer = run_cmp(
        alloc,
        &mut first,
        &mut second,
        &mut sink,
        relation,
        &lim,
        &hidden,
        &mut meter,
    );
    (
        answer,
        (has_more(&mut first), has_more(&mut second)),
        sink,
        meter,
    )
}

/// Compares the two systems in `pair`. Returns whether the comparison ends with the correct result, with a failed
/// allocation, or in another way.
pub(crate) fn ending(alloc: Global, pair: &Pair, relation: Relation) -> Ending {
    let same = match relation {
        Relation::Strong => pair.strong,
        Relation::Branching => pair.branching,
    };
    let (answer, left, sink, meter) = run(alloc, pair, relation);
    match answer {
        Ok(found) => Ending::wanted_if(found == same && is_said(same, left, &sink, &meter)),
        Err(refused) => Ending::refused_if(is_left(refused, same, left, &sink, &meter)),
    }
}

fn line_of(same: bool) -> &'static [u8] {
    if same { b"TRUE\n" } else { b"FALSE\n" }
}

/// Returns true if a successful comparison has read both inputs to their ends and written the line with its result.
fn is_said(same: bool, left: Left, sink: &VecSink, meter: &Counter) -> bool {
    left == (false, false)
        && sink.failures() == 0
        && sink.bytes() == line_of(same)
        && keeps_to(meter, 9, 7, 1)
}

/// Returns whether a failed comparison has satisfied its contract. If memory runs out while an input is read, the meter
/// must not have counted any rounds or visits (reads of transitions). The second input must not be read before the end
/// of the first input. If the sink (the object to which the output is written) fails to allocate memory, a prefix of
/// the line with the result may have been written. After every other failure, nothing may have been written.
fn is_left(refused: CmpFault, same: bool, left: Left, sink: &VecSink, meter: &Counter) -> bool {
    let CmpFault { side, fault } = refused;
    if fault == Fault::Device {
        return side == Side::Run
            && left == (false, false)
            && sink.failures() == 1
            && line_of(same).starts_with(sink.bytes())
            && keeps_to(meter, 9, 7, 1);
    }
    fault == Fault::Memory
        && sink.failures() == 0
        && sink.bytes().is_empty()
        && is_met(side, left, meter)
}

/// The argument `side` says when the error occurred: while the first input was read, while the second input was read,
/// or after both inputs had been read. Returns whether `side` agrees with the counts of the meter (the counter of
/// rounds and visits), and with the flags that say which inputs were not read to their ends.
fn is_met(side: Side, left: Left, meter: &Counter) -> bool {
    match side {
        Side::First => left.1 && meter.is_fresh(),
        Side::Second => !left.0 && meter.is_fresh(),
        Side::Run => left == (false, false) && keeps_to(meter, 9, 7, 1),
    }
}
