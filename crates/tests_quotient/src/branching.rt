//! Tests of refinement for branching bisimilarity.
use crate::named::{
    NOT_COMMITTED, OLD_BLOCKS, OPTION_BEHIND, SILENT_BESIDE_VISIBLE, SILENT_CHAIN, SILENT_CYCLE,
};
use crate::refining::{Made, append_line, append_signature, blocks, next, one_block, split};
use crate::showing::{Row, Shown, check_rows};
use lts::{Counter, Lts, Memory};
use refine::{Branching, Strong};
use std::alloc::Global;
use std::test::Fail;

/// The signature of state 0 consists of 8 pairs (label ID, block ID). Inert steps lead from the states 1 and 2 to state
/// 0. The signature of each of these two states contains all pairs of the signature of state 0 and one further pair.
const ONE_PAIR_MORE: &str =
    "0 of 3; 0 a 0; 0 b 0; 0 c 0; 0 d 0; 0 e 0; 0 f 0; 0 g 0; 0 h 0; 1 i 0; 1 x 0; 2 i 0; 2 y 0";

/// Each example consists of a system, and of the text that is expected after two rounds. The text contains the
/// signatures in each round, and the blocks after each round.
const TABLES: [Row; 2] = [
    (
        "silent-chain",
        SILENT_CHAIN,
        "{(1, 0)}{(1, 0)}{(1, 0)}{}2: 0 0 0 1\n\
        {(1, 1)}{(1, 1)}{(1, 1)}{}2: 0 0 0 1\n",
    ),
    (
        "silent-beside-visible",
        SILENT_BESIDE_VISIBLE,
        "{(1, 0)(2, 0)}{(2, 0)}{}{}3: 0 1 2 2\n\
        {(0, 1)(1, 2)}{(2, 2)}{}{}3: 0 1 2 2\n",
    ),
];

/// Each example consists of a system, and of the text that is expected after one round. The text contains the
/// signatures in this round, and the blocks after this round.
const ONE_ROUND: [Row; 2] = [
    ("cycle-signatures", SILENT_CYCLE, "{(1, 0)}{(1, 0)}1: 0 0\n"),
    (
        "one-pair-more",
        ONE_PAIR_MORE,
        "{(0, 0)(1, 0)(2, 0)(3, 0)(4, 0)(5, 0)(6, 0)(7, 0)}\
        {(0, 0)(1, 0)(2, 0)(3, 0)(4, 0)(5, 0)(6, 0)(7, 0)(9, 0)}\
        {(0, 0)(1, 0)(2, 0)(3, 0)(4, 0)(5, 0)(6, 0)(7, 0)(10, 0)}3: 0 1 2\n",
    ),
];

#[test]
fn branching_tables(rt: HostRuntime) -> Result<(), Fail> {
    check_rows(rt.alloc(), Shown::Branching(Made::Table(2)), &TABLES)?;
    check_rows(rt.alloc(), Shown::Branching(Made::Table(1)), &ONE_ROUND)
}

const REFINED: [Row; 3] = [
    (
        "silent-chain",
        SILENT_CHAIN,
        "2: 0 0 0 1; 2 rounds, 6 visits",
    ),
    (
        "silent-beside-visible",
        SILENT_BESIDE_VISIBLE,
        "3: 0 1 2 2; 2 rounds, 6 visits",
    ),
    (
        "cycle-signatures",
        SILENT_CYCLE,
        "1: 0 0; 1 rounds, 3 visits",
    ),
];

#[test]
fn refined_to_the_end(rt: HostRuntime) -> Result<(), Fail> {
    check_rows(rt.alloc(), Shown::Branching(Made::Refined), &REFINED)
}

/// Returns a text with the blocks after one round, and with the signature of state 0 with respect to these blocks. The
/// call that computes the signature appends it to a buffer that already contains the pair (7, 7).
pub(crate) fn signed(alloc: Global, l: &Lts<Counter>) -> Result<String, Memory> {
    let one = one_block(alloc, l)?;
    let p = split::<Branching>(alloc, l, &one, &mut String::new(alloc))?;
    let mut text = blocks(alloc, &p)?;
    text.push_str("; ")?;
    l.invariants();
    let mut m = Counter::new();
    append_signature::<Branching, Counter>(alloc, l, &p, &[(7, 7)], &mut m, &mut text)?;
    Ok(text)
}

const SIGNED: [Row; 2] = [
    (
        "stays-in-block",
        OPTION_BEHIND,
        "3: 0 1 2; (7, 7)(0, 2)(1, 1)",
    ),
    (
        "stops-at-visible",
        NOT_COMMITTED,
        "3: 0 1 2 2; (7, 7)(0, 1)",
    ),
];

#[test]
fn signatures_after_a_round(rt: HostRuntime) -> Result<(), Fail> {
    check_rows(rt.alloc(), Shown::BranchingSigned, &SIGNED)
}

/// Returns a text with two lines: the blocks after a round for strong bisimilarity, and the blocks after a round for
/// branching bisimilarity that starts from the blocks of the first line.
pub(crate) fn after_strong(alloc: Global, l: &Lts<Counter>) -> Result<String, Memory> {
    let mut text = String::new(alloc);
    let one = one_block(alloc, l)?;
    let first = next::<Strong>(alloc, l, one, &mut Counter::new())?;
    append_line(alloc, &first, &mut text)?;
    let second = next::<Branching>(alloc, l, first, &mut Counter::new())?;
    append_line(alloc, &second, &mut text)?;
    Ok(text)
}

const STRONG_FIRST: [Row; 1] = [("old-blocks-count", OLD_BLOCKS, "2: 0 1\n2: 0 1\n")];

/// A round for branching bisimilarity starts from the blocks after a round for strong bisimilarity. If two states are
/// in different blocks before this round, they are in different blocks after it.
#[test]
fn old_blocks_count(rt: HostRuntime) -> Result<(), Fail> {
    check_rows(rt.alloc(), Shown::StrongThenBranching, &STRONG_FIRST)
}

const FILLED_TWICE: [Row; 1] = [(
    "silent-beside-visible",
    SILENT_BESIDE_VISIBLE,
    "{(0, 1)(1, 2)}{(2, 2)}{}{} by 3 visits, {(1, 0)(2, 0)}{(2, 0)}{}{}",
)];

/// Computing the signatures takes three visits (reads of transitions), one for each transition of the system.
#[test]
fn silent_beside_visible_filled_twice(rt: HostRuntime) -> Result<(), Fail> {
    let what = Shown::Branching(Made::FilledTwice);
    check_rows(rt.alloc(), what, &FILLED_TWICE)
}

/// The signature of state 0 consists of 12 pairs (label ID, block ID). Paths of inert steps lead from the states 1 to 6
/// to state 0, and the signatures of these states contain the 12 pairs and one or two further pairs. A path of inert
/// steps leads from state 9 to state 0 as well, and the signature of state 9 contains the 12 pairs and five further
/// pairs. The states 7 and 8 have the same signatures as the states 1 and 4, but no path of inert steps leads from them
/// to state 0.
const FEW_PAIRS_MORE: &str =
    "0 of 10; 0 a 0; 0 b 0; 0 c 0; 0 d 0; 0 e 0; 0 f 0; 0 g 0; 0 h 0; 0 j 0; 0 k 0; 0 l 0; 0 m 0; \
    1 i 0; 1 x 0; 2 i 0; 2 y 0; 3 i 0; 3 x 0; 4 i 1; 4 y 0; 5 i 2; 5 x 0; 6 i 1; 6 i 2; \
    7 a 0; 7 b 0; 7 c 0; 7 d 0; 7 e 0; 7 f 0; 7 g 0; 7 h 0; 7 j 0; 7 k 0; 7 l 0; 7 m 0; 7 x 0; \
    8 i 7; 8 y 0; 9 i 6; 9 u 0; 9 v 0; 9 w 0";

const MORE: [Row; 1] = [("few-pairs-more", FEW_PAIRS_MORE, "5: 0 1 2 1 3 3 3 1 3 4\n")];

#[test]
fn few_pairs_more(rt: HostRuntime) -> Result<(), Fail> {
    check_rows(rt.alloc(), Shown::Branching(Made::Rounds(1)), &MORE)
}
