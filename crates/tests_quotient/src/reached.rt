//! Tests of the search for reachable states.
use crate::refining::append_counts;
use crate::showing::{Shown, check_row};
use lts::{Counter, Lts, Memory, Meter};
use quotient::reachable;
use std::alloc::Global;
use std::test::Fail;

/// An example: a system, and the text that is expected for its reachable states.
type Row = (&'static str, &'static str);

const REACHED: [Row; 8] = [
    // The first system is a single state without transitions. The second system is a single state with a transition to
    // itself.
    ("0 of 1", "0 by 0 rounds, 0 visits"),
    ("0 of 1; 0 a 0", "0 by 0 rounds, 1 visits"),
    // The system is a chain. In the first example, the search starts at the beginning of the chain, and in the second
    // example it starts in the middle.
    (
        "0 of 4; 2 a 3; 0 a 1; 1 a 2",
        "0 1 2 3 by 0 rounds, 3 visits",
    ),
    ("2 of 4; 2 a 3; 0 a 1; 1 a 2", "2 3 by 0 rounds, 1 visits"),
    // Two states of the system are not reachable.
    ("0 of 3; 1 a 2", "0 by 0 rounds, 0 visits"),
    // The system consists of a cycle and of one more state, which has a transition to the cycle.
    (
        "1 of 4; 0 a 1; 1 a 2; 2 a 3; 3 a 1",
        "1 2 3 by 0 rounds, 3 visits",
    ),
    // Several transitions lead to the same state.
    (
        "0 of 3; 0 a 1; 0 a 1; 0 a 2; 1 a 2; 2 a 1",
        "0 1 2 by 0 rounds, 5 visits",
    ),
    // The first state has transitions to two other states, and one of these states has a transition to the other.
    (
        "3 of 5; 3 a 0; 3 a 4; 4 a 0; 0 a 3; 1 a 0; 2 a 1",
        "0 3 4 by 0 rounds, 4 visits",
    ),
];

/// Returns a text with the reachable states in ascending order, and with the numbers of rounds and visits (reads of
/// transitions).
pub(crate) fn shown(alloc: Global, l: &Lts<Counter>) -> Result<String, Memory> {
    let mut m = Counter::new();
    let mut text = String::new(alloc);
    append_reached(alloc, l, &mut m, &mut text)?;
    text.push_str("by ")?;
    append_counts(alloc, &m, &mut text)?;
    Ok(text)
}

/// Appends the reachable states to the text. If the meter (the counter of rounds and visits) has no room for the visits
/// (reads of transitions), nothing is appended.
fn append_reached(
    alloc: Global,
    l: &Lts<Counter>,
    m: &mut Counter,
    text: &mut String,
) -> Result<(), Memory> {
    if !m.has_room(0, u128::from(l.edges())) {
        return Ok(());
    }
    let marks = reachable(alloc, l, m)?;
    append_marked(alloc, &marks, text)
}

fn append_marked(alloc: Global, marks: &[bool], text: &mut String) -> Result<(), Memory> {
    for (s, is_marked) in marks.iter().enumerate() {
        if *is_marked {
            text.push_str(&format!(in alloc; "{s} ")?)?;
        }
    }
    Ok(())
}

#[test]
fn finds_what_is_reachable(rt: HostRuntime) -> Result<(), Fail> {
    for (text, wanted) in &REACHED {
        check_row(rt.alloc(), Shown::Reached, text, text, wanted)?;
    }
    Ok(())
}
