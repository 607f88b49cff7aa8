//! Tests how rounds for strong bisimilarity split blocks. In the examples, all transitions lead to state 0, so that the
//! labels of the transitions of a state determine its signature.
use crate::pairing::{Paired, check_pair};
use crate::refining::{Made, blocks, next, one_block};
use crate::showing::{Shown, check_row};
use lts::{Counter, Lts, Memory};
use refine::Strong;
use std::alloc::Global;
use std::test::Fail;

/// An example consists of one or two systems, and of the blocks that are expected after one round with the first
/// system, followed by one round with the second system. If there is only one system, the second text is empty, and
/// there is no second round.
type Row = (&'static str, &'static str, &'static str);

const SPLITS: [Row; 9] = [
    // Before the first round, all states are in one block.
    ("0 of 1", "", "1: 0"),
    ("0 of 3", "", "1: 0 0 0"),
    // Blocks get their IDs in the order of their least states.
    (
        "0 of 6; 0 d 0; 1 b 0; 2 d 0; 4 b 0; 5 d 0",
        "",
        "3: 0 1 0 2 1 0",
    ),
    // A round may split some blocks, all blocks or no block.
    (
        "0 of 6; 0 d 0; 1 b 0; 2 d 0; 3 b 0; 4 b 0; 5 d 0",
        "0 of 6; 0 a 0; 1 a 0; 3 a 0; 5 a 0",
        "4: 0 1 2 1 3 0",
    ),
    (
        "0 of 4; 0 b 0; 1 b 0; 2 c 0; 3 c 0",
        "0 of 4; 0 d 0; 1 d 0; 2 d 0; 3 d 0",
        "2: 0 0 1 1",
    ),
    // A singleton block, which contains only one state, is never split or joined with another block.
    (
        "0 of 5; 1 a 0; 2 a 0; 3 b 0; 4 a 0",
        "0 of 5; 0 d 0; 1 d 0; 2 d 0; 3 d 0; 4 c 0",
        "4: 0 1 1 2 3",
    ),
    // States with equal signatures stay together.
    (
        "0 of 5; 0 a 0; 1 a 0; 2 b 0; 3 a 0; 4 a 0",
        "",
        "2: 0 0 1 0 0",
    ),
    // If one signature contains all pairs of another signature and further pairs, the two signatures are different. The
    // signature of a state does not depend on the order of its transitions: the states 1 and 4 share a block, although
    // their transitions are listed in different orders.
    (
        "0 of 6; 0 a 0; 1 a 0; 1 b 0; 2 b 0; 4 b 0; 4 a 0; 5 b 0",
        "",
        "4: 0 1 2 3 1 2",
    ),
    // Some states have empty signatures.
    (
        "0 of 5; 1 a 0; 2 a 0; 2 b 0; 4 a 0",
        "0 of 5; 4 b 0",
        "4: 0 1 2 0 3",
    ),
];

/// Returns the blocks after two rounds for strong bisimilarity. The first round uses the system `a` and starts from one
/// block. The second round uses the system `b`.
pub(crate) fn twice(alloc: Global, a: &Lts<Counter>, b: &Lts<Counter>) -> Result<String, Memory> {
    let p = one_block(alloc, a)?;
    let p = next::<Strong>(alloc, a, p, &mut Counter::new())?;
    let p = next::<Strong>(alloc, b, p, &mut Counter::new())?;
    blocks(alloc, &p)
}

fn check_split(alloc: Global, row: &Row) -> Result<(), Fail> {
    let (first, second, wanted) = *row;
    if second.is_empty() {
        let what = Shown::Strong(Made::OneRound);
        return check_row(alloc, what, first, first, wanted);
    }
    check_pair(alloc, Paired::Split, first, first, second, wanted)
}

#[test]
fn splits(rt: HostRuntime) -> Result<(), Fail> {
    for row in &SPLITS {
        check_split(rt.alloc(), row)?;
    }
    Ok(())
}
