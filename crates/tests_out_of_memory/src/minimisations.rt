//! Minimises a system in memory, and checks how the minimisation ended.
use crate::ending::{Ending, has_more, keeps_to};
use autbis::{Counts, run_min};
use autfmt::{Fault, Hidden, Limits, Sink, SliceSource, VecSink, read_hidden};
use lts::{Counter, Meter};
use quotient::Relation;
use std::alloc::Global;
use test_support::Example;

/// Reads the hide list of the example (the labels to hide), and minimises the system of the example. Returns whether
/// the minimisation ends with the correct result, with a failed allocation, or in another way.
pub(crate) fn ending(alloc: Global, example: &Example, relation: Relation) -> Ending {
    match read_hidden(alloc, &mut SliceSource::new(example.hide, None)) {
        Ok(hidden) => of_run(alloc, example, &hidden, relation),
        Err(fault) => Ending::refused_if(fault == Fault::Memory),
    }
}

/// What is known after a minimisation: the result, whether a part of the input was not read, the output, and the meter.
/// The meter has counted the rounds and the visits (reads of transitions).
type Ran = (Result<Counts, Fault>, bool, VecSink, Counter);

fn run(alloc: Global, text: &[u8], hidden: &Hidden, relation: Relation) -> Ran {
    let mut source = SliceSource::new(text, None).pieces(5);
    let mut sink = VecSink::new(alloc, None).pieces(4);
    let mut meter = Counter::new();
    let answer = run_min(
        alloc,
        &mut source,
        &mut sink,
        relation,
        &Limits::file(),
        hidden,
        &mut meter,
    );
    (answer, has_more(&mut source), sink, meter)
}

fn of_run(alloc: Global, example: &Example, hidden: &Hidden, relation: Relation) -> Ending {
    let out = match relation {
        Relation::Strong => example.strong,
        Relation::Branching => example.branching,
    };
    let (answer, has_more, sink, meter) = run(alloc, example.text, hidden, relation);
    if !is_counted(example, has_more, &meter) {
        return Ending::Wrong;
    }
    of_answer(answer, has_more, &sink, out)
}

/// Returns whether the numbers of rounds and visits (reads of transitions) that the meter has counted satisfy the
/// contract of the minimisation. If the input was not read to its end, the meter must not have counted anything.
/// Otherwise the two numbers must be within the bounds for this minimisation.
fn is_counted(example: &Example, has_more: bool, meter: &Counter) -> bool {
    if has_more {
        return meter.is_fresh();
    }
    keeps_to(meter, example.states, example.transitions, 2)
}

/// Returns how a minimisation ended. The result is `Wanted` if the whole output was written. The result is `Refused` if
/// an allocation failed and nothing was written. The result is also `Refused` if the sink (the object to which the
/// output is written) failed to allocate memory, and a prefix of the output was written. In all other cases, the result
/// is `Wrong`.
fn of_answer(answer: Result<Counts, Fault>, has_more: bool, sink: &VecSink, out: &[u8]) -> Ending {
    let (bytes, failures) = (sink.bytes(), sink.failures());
    match answer {
        Ok(_) => Ending::wanted_if(!has_more && failures == 0 && bytes == out),
        Err(Fault::Memory) => Ending::refused_if(failures == 0 && bytes.is_empty()),
        Err(Fault::Device) => {
            Ending::refused_if(!has_more && failures == 1 && out.starts_with(bytes))
        }
        Err(_) => Ending::Wrong,
    }
}
