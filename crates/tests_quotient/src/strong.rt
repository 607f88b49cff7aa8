//! Tests of refinement for strong bisimilarity.
use crate::named::{CHAIN_OF_THREE, LABEL_ORDER, LONE_STATE, TWO_SPELLINGS};
use crate::refining::{Made, append_signature, one_block};
use crate::showing::{Row, Shown, check_row, check_rows};
use lts::{Counter, Lts, Memory, Meter};
use refine::Strong;
use std::alloc::Global;
use std::test::Fail;

/// The expected result of four rounds. The result consists of a line with the blocks after each round, and of the
/// numbers of rounds and visits (reads of transitions).
const ROUNDS: [Row; 1] = [(
    "chain-rounds",
    CHAIN_OF_THREE,
    "2: 0 0 0 1\n3: 0 0 1 2\n4: 0 1 2 3\n4: 0 1 2 3\n4 rounds, 12 visits",
)];

#[test]
fn rounds_one_by_one(rt: HostRuntime) -> Result<(), Fail> {
    check_rows(rt.alloc(), Shown::Strong(Made::Counted(4)), &ROUNDS)
}

const REFINED: [Row; 2] = [
    (
        "chain-refined",
        CHAIN_OF_THREE,
        "4: 0 1 2 3; 4 rounds, 12 visits",
    ),
    ("lone-state-refined", LONE_STATE, "1: 0; 1 rounds, 0 visits"),
];

#[test]
fn refined_to_the_end(rt: HostRuntime) -> Result<(), Fail> {
    check_rows(rt.alloc(), Shown::Strong(Made::Refined), &REFINED)
}

const CHAIN: [Row; 1] = [(
    "chain-of-three",
    CHAIN_OF_THREE,
    "{(0, 0)}{(0, 0)}{(0, 0)}{}2: 0 0 0 1\n\
    {(0, 0)}{(0, 0)}{(0, 1)}{}3: 0 0 1 2\n\
    {(0, 0)}{(0, 1)}{(0, 2)}{}4: 0 1 2 3\n\
    {(0, 1)}{(0, 2)}{(0, 3)}{}4: 0 1 2 3\n",
)];

#[test]
fn chain_of_three(rt: HostRuntime) -> Result<(), Fail> {
    check_rows(rt.alloc(), Shown::Strong(Made::Table(4)), &CHAIN)
}

const CHAIN_TWICE: [Row; 1] = [(
    "chain-of-three, filled twice",
    CHAIN_OF_THREE,
    "{(0, 0)}{(0, 0)}{(0, 1)}{} by 3 visits, {(0, 0)}{(0, 0)}{(0, 0)}{}",
)];

/// If signatures are computed twice with the same buffers, the second result does not depend on the first result.
#[test]
fn chain_filled_twice(rt: HostRuntime) -> Result<(), Fail> {
    check_rows(rt.alloc(), Shown::Strong(Made::FilledTwice), &CHAIN_TWICE)
}

/// Returns a text with the signature of state 0 with respect to a single block that contains all states, and with the
/// number of visits (reads of transitions). The call that computes the signature appends it to the pairs in `stood`.
pub(crate) fn signed(
    alloc: Global,
    l: &Lts<Counter>,
    stood: &[(u32, u32)],
) -> Result<String, Memory> {
    let mut m = Counter::new();
    let mut text = String::new(alloc);
    append_first(alloc, l, stood, &mut m, &mut text)?;
    text.push_str(&format!(in alloc; "; {} visits", m.visits())?)?;
    Ok(text)
}

/// Computes the signature of state 0 with respect to a single block that contains all states. Appends the pairs in
/// `stood` to the text, followed by the signature. If the meter (the counter of rounds and visits) has no room for the
/// visits (reads of transitions), nothing is appended.
fn append_first(
    alloc: Global,
    l: &Lts<Counter>,
    stood: &[(u32, u32)],
    m: &mut Counter,
    text: &mut String,
) -> Result<(), Memory> {
    l.invariants();
    let (start, end) = l.row(0);
    if !m.has_room(0, u128::from(end - start)) {
        return Ok(());
    }
    let p = one_block(alloc, l)?;
    append_signature::<Strong, Counter>(alloc, l, &p, stood, m, text)
}

#[test]
fn after_what_stood(rt: HostRuntime) -> Result<(), Fail> {
    let wanted = "(7, 7)(0, 0)(1, 0)(2, 0); 3 visits";
    let what = Shown::StrongSigned(&[(7, 7)]);
    check_row(rt.alloc(), what, "signature", LABEL_ORDER, wanted)
}

#[test]
fn repeated_once(rt: HostRuntime) -> Result<(), Fail> {
    let (what, wanted) = (Shown::StrongSigned(&[]), "(0, 0); 3 visits");
    check_row(rt.alloc(), what, "signature", TWO_SPELLINGS, wanted)
}
