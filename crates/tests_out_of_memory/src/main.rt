//! Worked examples in memory, for the script `tests/refused-calls/try`, which runs this program many times and makes a
//! different allocation fail each time. The exit status is 0 if each example ended with the expected result. The exit
//! status is 4 if an allocation failed in some example and all examples satisfied their contracts. In this case, the
//! program writes the message that `autbis` writes if memory runs out. In all other cases, the exit status is 1, and
//! the program writes the names of the examples that had neither the expected result nor a failed allocation.
#![tactic(auto)]

mod comparisons;
mod ending;
mod minimisations;
mod streams;

use autbis::{Fault, Relation, report};
use ending::Ending;
use std::alloc::Global;
use std::io::Write;
use std::process::ExitCode;
use test_support::{EXAMPLES, Example, MOMENT_OF_CHOICE, Pair, SILENT_MIDDLE};

const RELATIONS: [Relation; 2] = [Relation::Strong, Relation::Branching];

fn main(rt: HostRuntime) -> ExitCode {
    let errors = &mut rt.stderr();
    let ending = all(rt.alloc(), errors);
    ExitCode::from(status(ending, errors))
}

/// Returns the exit status for the way in which the examples ended. If an allocation failed, a message is also written
/// to `e`.
fn status<E: Write>(ending: Ending, e: &mut E) -> u8 {
    match ending {
        Ending::Wanted => 0,
        Ending::Refused => report(&Fault::Memory, "", e),
        Ending::Wrong => 1,
    }
}

/// Runs all examples. The result is `Wrong` if an example had neither the expected result nor a failed allocation.
/// Otherwise, the result is `Refused` if an allocation failed in some example, and `Wanted` if every example ended with
/// the expected result.
fn all<E: Write>(alloc: Global, e: &mut E) -> Ending {
    let mut worst = said("streams", streams::ending(alloc), e);
    for example in &EXAMPLES {
        worst = worst.and(minimised(alloc, example, e));
    }
    for pair in &[MOMENT_OF_CHOICE, SILENT_MIDDLE] {
        worst = worst.and(compared(alloc, pair, e));
    }
    worst
}

/// Minimises the example modulo strong and modulo branching bisimilarity. The result is `Wrong` if a minimisation had
/// neither the expected result nor a failed allocation. Otherwise, the result is `Refused` if an allocation failed, and
/// `Wanted` if both minimisations ended with the expected result.
fn minimised<E: Write>(alloc: Global, example: &Example, e: &mut E) -> Ending {
    let mut worst = Ending::Wanted;
    for relation in RELATIONS {
        let ending = minimisations::ending(alloc, example, relation);
        worst = worst.and(said(example.name, ending, e));
    }
    worst
}

/// Compares the two systems in `pair` modulo strong and modulo branching bisimilarity. The result is `Wrong` if a
/// comparison had neither the expected result nor a failed allocation. Otherwise, the result is `Refused` if an
/// allocation failed, and `Wanted` if both comparisons ended with the expected result.
fn compared<E: Write>(alloc: Global, pair: &Pair, e: &mut E) -> Ending {
    let mut worst = Ending::Wanted;
    for relation in RELATIONS {
        let ending = comparisons::ending(alloc, pair, relation);
        worst = worst.and(said(pair.name, ending, e));
    }
    worst
}

/// Returns `ending`, the way in which an example ended. If `ending` is `Wrong`, the function also writes the name of
/// the example to `e`.
fn said<E: Write>(name: &str, ending: Ending, e: &mut E) -> Ending {
    if ending == Ending::Wrong {
        let _ = writeln!(e, "{name}");
    }
    ending
}
