//! Tests of the label table, of systems in memory, of the union of two systems, and of the meter, which counts rounds
//! and visits (reads of transitions).
use crate::pairing::{Paired, check_pair};
use crate::showing::{Shown, check_row};
use crate::texts::{append_spelled, system};
use lts::{
    Counter, Incoming, Labels, Lts, MOST_LABELS, Memory, Meter, fits_together, in_range, is_label,
    union, visit_rest,
};
use std::alloc::Global;
use std::test::Fail;
use test_support::check;

/// Byte strings, and whether they are allowed as labels.
const LABELS: [(&[u8], bool); 8] = [
    (b"", false),
    (b"i", true),
    (b"SEND !\"1\"", true),
    (b" ", true),
    (b"~", true),
    (b"a\x1F", false),
    (b"a\x7F", false),
    (b"\xC3\xA9", false),
];

#[test]
fn knows_labels(rt: HostRuntime) -> Result<(), Fail> {
    for (bytes, wanted) in &LABELS {
        check("label", is_label(bytes) == *wanted)?;
    }
    for (len, wanted) in [(8000, true), (8001, false)] {
        let label = vec![in rt.alloc(); b'x'; len]?;
        check("long label", is_label(&label) == wanted)?;
    }
    Ok(())
}

/// Returns a label table to which the labels in `texts` were added one after the other.
fn table(alloc: Global, texts: &[&[u8]]) -> Result<Labels, Memory> {
    let mut labels = Labels::new(alloc);
    for text in texts {
        if is_label(text) && labels.len() < MOST_LABELS {
            labels.intern(text)?;
        }
    }
    Ok(labels)
}

/// The labels that a test adds to a table. One label occurs twice.
const PUT_IN: [&[u8]; 4] = [b"send", b"i", b"send", b"receive"];

/// Labels with their IDs in the table to which the labels `PUT_IN` were added. The ID is `None` if the table does not
/// contain the label.
const NUMBERS: [(&[u8], Option<u32>); 4] = [
    (b"send", Some(0)),
    (b"i", Some(1)),
    (b"receive", Some(2)),
    (b"sen", None),
];

#[test]
fn numbers_labels(rt: HostRuntime) -> Result<(), Fail> {
    let labels = table(rt.alloc(), &PUT_IN)?;
    for (label, wanted) in &NUMBERS {
        check("number", labels.find(label) == *wanted)?;
    }
    check(
        "internal",
        labels.internal() == Some(1) && labels.len() == 3,
    )
}

/// Counts two rounds and one visit (read of a transition) with the meter. If the meter has no room for these counts,
/// the function counts nothing.
fn count<M: Meter>(m: &mut M) {
    if m.has_room(2, 1) {
        m.start_round();
        m.visit();
        m.start_round();
    }
}

#[test]
fn counts(_rt: HostRuntime) -> Result<(), Fail> {
    let mut m = Counter::new();
    check("fresh", m.is_fresh())?;
    count(&mut m);
    check(
        "counted",
        !m.is_fresh() && m.rounds() == 2 && m.visits() == 1,
    )?;
    check("room", m.has_room(u128::MAX - 2, u128::MAX - 1))?;
    check("rounds", !m.has_room(u128::MAX - 1, 0))?;
    check("visits", !m.has_room(0, u128::MAX))
}

/// An example: the first state, the number of states, the transitions as triples, and whether all these numbers are in
/// range if the system has two labels.
type Range = (u32, u32, &'static [(u32, u32, u32)], bool);

const RANGES: [Range; 8] = [
    (0, 1, &[], true),
    (0, 0, &[], false),
    (1, 1, &[], false),
    (1, 2, &[(0, 0, 1), (1, 1, 0)], true),
    (0, 2, &[(2, 0, 0)], false),
    (0, 2, &[(0, 2, 0)], false),
    (0, 2, &[(0, 0, 2)], false),
    (0, 2_000_001, &[], false),
];

#[test]
fn knows_what_is_in_range(rt: HostRuntime) -> Result<(), Fail> {
    let labels = table(rt.alloc(), &[b"a", b"b"])?;
    for (first, states, e, wanted) in &RANGES {
        check("range", in_range(&labels, *first, *states, e) == *wanted)?;
    }
    Ok(())
}

/// Returns a text with the system in the short notation of the file `texts`, and with the numbers of its transitions
/// and labels.
pub(crate) fn shown(alloc: Global, l: &Lts<Counter>) -> Result<String, Memory> {
    let mut text = String::new(alloc);
    append_shown(alloc, l, &mut text)?;
    Ok(text)
}

fn append_shown(alloc: Global, l: &Lts<Counter>, text: &mut String) -> Result<(), Memory> {
    append_spelled(alloc, l, text)?;
    let (edges, labels) = (l.edges(), l.labels().len());
    text.push_str(&format!(in alloc; ", {edges} transitions, {labels} labels")?)?;
    Ok(())
}

#[test]
fn groups_by_source(rt: HostRuntime) -> Result<(), Fail> {
    let text = "2 of 3; 2 a 1; 0 i 2; 2 i 0; 0 a 1; 2 a 1";
    let wanted = "2 of 3; 0 i 2; 0 a 1; 2 a 1; 2 i 0; 2 a 1, 5 transitions, 2 labels";
    check_row(rt.alloc(), Shown::System, "grouped", text, wanted)
}

/// Returns the number of visits (reads of transitions) that `visit_rest` makes if the meter has counted nothing before.
fn rest_visits(l: &Lts<Counter>) -> u128 {
    let mut m = Counter::new();
    if m.has_room(1, u128::from(l.edges())) {
        visit_rest(l, 0, &mut m);
    }
    m.visits()
}

#[test]
fn visits_the_rest(rt: HostRuntime) -> Result<(), Fail> {
    let l = system(rt.alloc(), "2 of 3; 2 a 1; 0 i 2; 2 i 0; 0 a 1; 2 a 1")?;
    check("visits", rest_visits(&l) == 5)
}

/// The predecessor index has an entry for each transition. The entries are ordered by the targets of the transitions.
/// Returns two ranges of entries: the range of the entries of all transitions to the state `t`, and the range of the
/// entries of the internal transitions to `t`. Both ranges are empty if the system has no state `t`, or if the meter
/// (the counter of rounds and visits) has no room for the visits (reads of transitions).
fn entries_of(alloc: Global, l: &Lts<Counter>, t: u32) -> Result<[(u32, u32); 2], Memory> {
    let mut m = Counter::new();
    if t >= l.states() || !m.has_room(0, u128::from(l.edges())) {
        return Ok([(0, 0), (0, 0)]);
    }
    let (incoming, _visited) = Incoming::build(alloc, l, true, &mut m)?;
    Ok([incoming.range(t), incoming.internal_range(t)])
}

/// The entries of the predecessor index are ordered by the targets of their transitions. For each target, the entries
/// of the internal transitions come first.
#[test]
fn knows_what_leads_to_states(rt: HostRuntime) -> Result<(), Fail> {
    let text = "2 of 3; 2 a 1; 0 i 2; 2 i 0; 0 a 1; 2 a 1; 1 i 1";
    let l = system(rt.alloc(), text)?;
    check("to 0", entries_of(rt.alloc(), &l, 0)? == [(0, 1), (0, 1)])?;
    check("to 1", entries_of(rt.alloc(), &l, 1)? == [(1, 5), (1, 2)])?;
    check("to 2", entries_of(rt.alloc(), &l, 2)? == [(5, 6), (5, 6)])
}

/// Builds the predecessor index, which has an entry for each transition, and removes the first entry of the internal
/// transitions to the state `t`. After this, the function returns the range of the entries of all transitions to `t`,
/// and the range of the remaining entries of the internal transitions to `t`.
fn entries_without(alloc: Global, l: &Lts<Counter>, t: u32) -> Result<[(u32, u32); 2], Memory> {
    let mut m = Counter::new();
    if t >= l.states() || !m.has_room(0, u128::from(l.edges())) {
        return Ok([(0, 0), (0, 0)]);
    }
    let (mut incoming, _visited) = Incoming::build(alloc, l, true, &mut m)?;
    let (start, end) = incoming.internal_range(t);
    if start < end {
        incoming.remove_entry(t, start);
    }
    Ok([incoming.range(t), incoming.internal_range(t)])
}

#[test]
fn forgets_an_internal_transition(rt: HostRuntime) -> Result<(), Fail> {
    let text = "2 of 3; 2 a 1; 0 i 1; 2 i 1; 0 a 1; 2 a 1; 1 i 2";
    let l = system(rt.alloc(), text)?;
    check(
        "to 1",
        entries_without(rt.alloc(), &l, 1)? == [(0, 5), (0, 1)],
    )?;
    check(
        "to 2",
        entries_without(rt.alloc(), &l, 2)? == [(5, 6), (5, 5)],
    )
}

/// Builds the predecessor index, and then clears the set of visited transitions that the call returned together with
/// the index. Returns the number of visits (reads of transitions) that building the index takes, whether the set is
/// empty before the function clears it, and whether the set is empty afterwards.
fn visits_of_index(alloc: Global, l: &Lts<Counter>) -> Result<(u128, bool, bool), Memory> {
    let mut m = Counter::new();
    if !m.has_room(0, u128::from(l.edges())) {
        return Ok((0, true, true));
    }
    let (_incoming, mut visited) = Incoming::build(alloc, l, false, &mut m)?;
    let none = visited.is_empty();
    visited.clear();
    Ok((m.visits(), none, visited.is_empty()))
}

#[test]
fn visits_each_place_for_the_index(rt: HostRuntime) -> Result<(), Fail> {
    let l = system(rt.alloc(), "2 of 3; 2 a 1; 0 i 2; 2 i 0; 0 a 1; 2 a 1")?;
    check(
        "visits",
        visits_of_index(rt.alloc(), &l)? == (5, false, true),
    )
}

/// Returns a text with the union in the short notation of the file `texts`, and with the number of visits (reads of
/// transitions).
pub(crate) fn joined(alloc: Global, a: &Lts<Counter>, b: &Lts<Counter>) -> Result<String, Memory> {
    let mut m = Counter::new();
    let mut text = String::new(alloc);
    append_joined(alloc, a, b, &mut m, &mut text)?;
    text.push_str(&format!(in alloc; ", {} visits", m.visits())?)?;
    Ok(text)
}

/// Appends the union to the text. Nothing is appended if the union is too large, or if the meter (the counter of rounds
/// and visits) has no room for the visits (reads of transitions).
fn append_joined(
    alloc: Global,
    a: &Lts<Counter>,
    b: &Lts<Counter>,
    m: &mut Counter,
    text: &mut String,
) -> Result<(), Memory> {
    if !fits_together(a, b) || !m.has_room(0, 40_000_000) {
        return Ok(());
    }
    let l = union(alloc, a, b, m)?;
    append_shown(alloc, &l, text)
}

/// The label tables of the two systems have different orders. Building the union takes four visits (reads of
/// transitions), one for each transition.
#[test]
fn joins_by_bytes(rt: HostRuntime) -> Result<(), Fail> {
    let (a, b) = ("1 of 2; 0 a 1; 1 i 0", "0 of 2; 1 i 1; 0 b 1");
    let wanted = "1 of 4; 0 a 1; 1 i 0; 2 b 3; 3 i 3, 4 transitions, 3 labels, 4 visits";
    check_pair(rt.alloc(), Paired::Union, "joined", a, b, wanted)
}
