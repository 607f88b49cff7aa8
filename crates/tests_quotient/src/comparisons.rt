//! Tests of the comparison of two systems.
use crate::named::{
    HIDDEN_STEP, LONE_STATE, MOMENT_AFTER, MOMENT_BEFORE, NO_MIDDLE, NOT_COMMITTED, ONLY_A, ONLY_B,
    OPTION_BEHIND, SILENT_LOOP,
};
use crate::pairing::{Paired, check_pair};
use crate::refining::append_counts;
use lts::{Counter, Lts, Memory, Meter, fits_together};
use quotient::{Relation, equivalent};
use std::alloc::Global;
use std::test::Fail;

/// An example: its name, its two systems, whether they are strongly bisimilar, and whether they are branching
/// bisimilar.
type Row = (&'static str, &'static str, &'static str, bool, bool);

const VERDICTS: [Row; 10] = [
    (
        "moment-of-choice",
        MOMENT_AFTER,
        MOMENT_BEFORE,
        false,
        false,
    ),
    (
        "silent-middle",
        "0 of 4; 0 a 1; 1 i 2; 2 b 3",
        NO_MIDDLE,
        false,
        true,
    ),
    ("silent-loop", SILENT_LOOP, LONE_STATE, false, true),
    ("first-differs", "1 of 2; 1 a 0", ONLY_A, true, true),
    ("different-labels", ONLY_A, ONLY_B, false, false),
    (
        "reordered-lines",
        NO_MIDDLE,
        "0 of 3; 1 b 2; 0 a 1",
        true,
        true,
    ),
    (
        "committed-or-not",
        NOT_COMMITTED,
        "0 of 4; 0 a 1; 0 a 2; 1 i 2; 1 b 3",
        false,
        false,
    ),
    (
        "lost-option",
        OPTION_BEHIND,
        "0 of 3; 0 a 2; 0 b 2; 0 i 1; 1 b 2",
        false,
        false,
    ),
    ("hidden-both-sides", HIDDEN_STEP, ONLY_B, false, true),
    (
        "hidden-both-sides, not hidden",
        NO_MIDDLE,
        ONLY_B,
        false,
        false,
    ),
];

/// Returns whether the systems are equivalent. The result is `None` if their union would be too large, or if the meter
/// (the counter of rounds and visits) has counted something before the call.
fn verdict(
    alloc: Global,
    a: &Lts<Counter>,
    b: &Lts<Counter>,
    relation: Relation,
    m: &mut Counter,
) -> Result<Option<bool>, Memory> {
    if !fits_together(a, b) || !m.is_fresh() {
        return Ok(None);
    }
    Ok(Some(equivalent(alloc, a, b, relation, m)?))
}

fn word(alloc: Global, verdict: Option<bool>) -> Result<String, Memory> {
    let word = match verdict {
        Some(true) => "equivalent",
        Some(false) => "different",
        None => "not compared",
    };
    Ok(String::from_str(alloc, word)?)
}

/// Returns the result of the comparison as a word: `equivalent` or `different`.
pub(crate) fn shown(
    alloc: Global,
    a: &Lts<Counter>,
    b: &Lts<Counter>,
    relation: Relation,
) -> Result<String, Memory> {
    let found = verdict(alloc, a, b, relation, &mut Counter::new())?;
    word(alloc, found)
}

/// Returns a text with the result of the comparison (`equivalent` or `different`), and with the numbers of rounds and
/// visits (reads of transitions).
pub(crate) fn counted(
    alloc: Global,
    a: &Lts<Counter>,
    b: &Lts<Counter>,
    relation: Relation,
) -> Result<String, Memory> {
    let mut m = Counter::new();
    let found = verdict(alloc, a, b, relation, &mut m)?;
    let mut text = word(alloc, found)?;
    text.push_str("; ")?;
    append_counts(alloc, &m, &mut text)?;
    Ok(text)
}

/// Compares the two systems in `row` for the relation `relation`. If `same` is true, the result must be that the two
/// systems are equivalent. If `same` is false, the result must be that they are not equivalent. The function fails if
/// the comparison has another result.
fn check_verdict(alloc: Global, row: &Row, relation: Relation, same: bool) -> Result<(), Fail> {
    let (name, a, b, _, _) = *row;
    let wanted = if same { "equivalent" } else { "different" };
    check_pair(alloc, Paired::Verdict(relation), name, a, b, wanted)
}

#[test]
fn by_strong_bisimulation(rt: HostRuntime) -> Result<(), Fail> {
    for row in &VERDICTS {
        check_verdict(rt.alloc(), row, Relation::Strong, row.3)?;
    }
    Ok(())
}

#[test]
fn by_branching_bisimulation(rt: HostRuntime) -> Result<(), Fail> {
    for row in &VERDICTS {
        check_verdict(rt.alloc(), row, Relation::Branching, row.4)?;
    }
    Ok(())
}

/// Comparing the two systems of the example `moment-of-choice` takes 3 rounds. Building the union of the systems takes
/// 7 visits (reads of transitions), and each round takes 7 visits.
#[test]
fn what_a_comparison_counts(rt: HostRuntime) -> Result<(), Fail> {
    let (name, a, b) = ("moment-of-choice", MOMENT_AFTER, MOMENT_BEFORE);
    let (what, wanted) = (
        Paired::Counted(Relation::Strong),
        "different; 3 rounds, 28 visits",
    );
    check_pair(rt.alloc(), what, name, a, b, wanted)
}
