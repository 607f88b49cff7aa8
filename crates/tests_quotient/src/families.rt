//! Families of systems for which refinement for branching bisimilarity is hard. The expected results come from an
//! independent program. Each system is tested twice. In the second test, the states of the system are numbered in
//! reverse order.
use crate::refining::Made;
use crate::showing::{Shown, check_row};
use crate::texts::turned;
use std::alloc::Global;
use std::test::Fail;

/// An example: its name, its system, and four expected results. Each result consists of the final blocks and of the
/// numbers of rounds and visits (reads of transitions). The first two results are for strong and for branching
/// bisimilarity. The other two results are for the same two relations and the system with its states numbered in
/// reverse order.
type Family = (&'static str, &'static str, [&'static str; 4]);

const ENTRY_4: &str =
    "8 of 9; 0 i 1; 0 l0 6; 5 l0 6; 1 i 2; 1 l1 6; 4 l1 6; 2 i 3; 2 l2 6; 4 l2 6; 3 i 0; \
    3 l3 6; 4 l3 6; 7 i 4; 7 i 5; 8 go 7; 0 enter 0; 4 enter 0; 5 enter 0; 7 enter 0";

const ENTRIES_3: &str =
    "9 of 10; 0 i 1; 0 l0 5; 4 l0 5; 1 i 2; 1 l1 5; 3 l1 5; 2 i 0; 2 l2 5; 3 l2 5; 6 i 3; \
    6 i 4; 9 go 6; 7 i 3; 7 i 4; 9 go 7; 8 i 3; 8 i 4; 9 go 8; 0 enter 0; 3 enter 0; \
    4 enter 0; 6 enter 0; 7 enter 0; 8 enter 0";

const HUBS_3: &str =
    "6 of 7; 1 l0 0; 1 l1 0; 1 l2 0; 2 l1 0; 2 l2 0; 2 l3 0; 3 i 1; 3 i 2; 6 go 3; 4 i 1; \
    4 i 2; 6 go 4; 5 i 1; 5 i 2; 6 go 5";

const HALVES_4: &str =
    "7 of 8; 1 l0 0; 1 l1 0; 2 l2 0; 2 l3 0; 3 i 1; 3 i 2; 7 go 3; 4 i 1; 4 i 2; 7 go 4; \
    5 i 1; 5 i 2; 7 go 5; 6 i 1; 6 i 2; 7 go 6";

const PAIRS_3: &str =
    "7 of 8; 1 l0_0 0; 1 l0_1 0; 1 l0_2 0; 2 l1_0 0; 2 l1_1 0; 2 l1_2 0; 3 l2_0 0; 3 l2_1 0; \
    3 l2_2 0; 4 i 1; 4 i 2; 7 go 4; 5 i 1; 5 i 3; 7 go 5; 6 i 2; 6 i 3; 7 go 6";

const COVER_4: &str =
    "11 of 12; 1 l1 0; 1 l2 0; 1 l3 0; 2 l0 0; 2 l2 0; 2 l3 0; 3 l0 0; 3 l1 0; 3 l3 0; 4 l0 0; \
    4 l1 0; 4 l2 0; 5 i 1; 5 i 2; 11 go 5; 6 i 1; 6 i 3; 11 go 6; 7 i 1; 7 i 4; 11 go 7; \
    8 i 2; 8 i 3; 11 go 8; 9 i 2; 9 i 4; 11 go 9; 10 i 3; 10 i 4; 11 go 10";

const TWINS_2: &str =
    "7 of 8; 1 l0 0; 2 l0 0; 1 l1 0; 2 l1 0; 1 x 0; 2 y 0; 3 i 1; 3 y 0; 3 z0 0; 7 go 3; \
    4 i 2; 4 x 0; 4 z0 0; 7 go 4; 5 i 1; 5 y 0; 5 z1 0; 7 go 5; 6 i 2; 6 x 0; 6 z1 0; 7 go 6";

const VARY_4: &str =
    "11 of 12; 1 l0 0; 1 l1 0; 2 l2 0; 2 l3 0; 3 l0 0; 7 i 1; 7 i 2; 7 i 3; 11 go 7; 4 l1 0; \
    8 i 1; 8 i 2; 8 i 4; 11 go 8; 5 l2 0; 9 i 1; 9 i 2; 9 i 5; 11 go 9; 6 l3 0; 10 i 1; \
    10 i 2; 10 i 6; 11 go 10";

const VARYN_4: &str =
    "11 of 12; 1 l0 0; 1 l1 0; 2 l2 0; 2 l3 0; 3 m0 0; 7 i 1; 7 i 2; 7 i 3; 11 go 7; 4 m1 0; \
    8 i 1; 8 i 2; 8 i 4; 11 go 8; 5 m2 0; 9 i 1; 9 i 2; 9 i 5; 11 go 9; 6 m3 0; 10 i 1; \
    10 i 2; 10 i 6; 11 go 10";

const FAN_8: &str =
    "11 of 12; 1 l0 0; 1 l1 0; 1 l2 0; 1 l3 0; 1 l4 0; 1 l5 0; 1 l6 0; 1 l7 0; 2 m0 0; 2 i 1; \
    3 i 2; 3 z0 0; 11 go 3; 4 i 2; 4 z1 0; 11 go 4; 5 i 2; 5 z2 0; 11 go 5; 6 i 2; 6 z3 0; \
    11 go 6; 7 i 2; 7 z4 0; 11 go 7; 8 i 2; 8 z5 0; 11 go 8; 9 i 2; 9 z6 0; 11 go 9; 10 i 2; \
    10 z7 0; 11 go 10";

const SAME_8: &str =
    "11 of 12; 1 l0 0; 1 l1 0; 1 l2 0; 1 l3 0; 1 l4 0; 1 l5 0; 1 l6 0; 1 l7 0; 2 m0 0; 2 i 1; \
    3 i 2; 3 z 0; 11 go 3; 4 i 2; 4 z 0; 11 go 4; 5 i 2; 5 z 0; 11 go 5; 6 i 2; 6 z 0; \
    11 go 6; 7 i 2; 7 z 0; 11 go 7; 8 i 2; 8 z 0; 11 go 8; 9 i 2; 9 z 0; 11 go 9; 10 i 2; \
    10 z 0; 11 go 10";

const OWN_3: &str =
    "5 of 6; 1 l0 0; 1 l1 0; 1 l2 0; 2 i 1; 2 l0 0; 5 go 2; 3 i 1; 3 l1 0; 5 go 3; 4 i 1; \
    4 l2 0; 5 go 4";

const TAIL_4: &str = "0 of 5; 0 i 1; 1 i 2; 2 i 3; 0 l0 4; 1 l1 4; 2 l2 4; 3 l3 4";

const TAILHUB_3: &str =
    "0 of 5; 4 h0 3; 4 h1 3; 4 h2 3; 0 i 1; 0 l0 3; 0 i 4; 1 i 2; 1 l1 3; 1 i 4; 2 i 4; \
    2 l2 3; 2 i 4";

const TREE_3: &str =
    "7 of 8; 0 i 1; 1 i 2; 0 l0 3; 1 l1 3; 2 l2 3; 4 i 0; 4 i 2; 7 go 4; 5 i 1; 5 i 1; 7 go 5; \
    6 i 2; 6 i 0; 7 go 6";

/// The systems in this list have cycles of inert steps. In the first round, some states outside of these cycles have
/// the same signatures as the states on a cycle, but these signatures result from other transitions.
const CYCLES: [Family; 2] = [
    (
        "entry 4",
        ENTRY_4,
        [
            "9: 0 1 2 3 4 5 6 7 8; 2 rounds, 38 visits",
            "6: 0 0 0 0 1 2 3 4 5; 3 rounds, 57 visits",
            "9: 0 1 2 3 4 5 6 7 8; 2 rounds, 38 visits",
            "6: 0 1 2 3 4 5 5 5 5; 3 rounds, 57 visits",
        ],
    ),
    (
        "entries 3",
        ENTRIES_3,
        [
            "8: 0 1 2 3 4 5 6 6 6 7; 2 rounds, 48 visits",
            "6: 0 0 0 1 2 3 4 4 4 5; 3 rounds, 72 visits",
            "8: 0 1 1 1 2 3 4 5 6 7; 2 rounds, 48 visits",
            "6: 0 1 1 1 2 3 4 5 5 5; 3 rounds, 72 visits",
        ],
    ),
];

/// In each system in this list, several states have two inert steps each, and several of these steps lead to the same
/// target. So refinement has to compute several unions that include the signature of this target.
const UNIONS: [Family; 4] = [
    (
        "hubs 3",
        HUBS_3,
        [
            "5: 0 1 2 3 3 3 4; 2 rounds, 30 visits",
            "5: 0 1 2 3 3 3 4; 2 rounds, 30 visits",
            "5: 0 1 1 1 2 3 4; 2 rounds, 30 visits",
            "5: 0 1 1 1 2 3 4; 2 rounds, 30 visits",
        ],
    ),
    (
        "halves 4",
        HALVES_4,
        [
            "5: 0 1 2 3 3 3 3 4; 2 rounds, 32 visits",
            "5: 0 1 2 3 3 3 3 4; 2 rounds, 32 visits",
            "5: 0 1 1 1 1 2 3 4; 2 rounds, 32 visits",
            "5: 0 1 1 1 1 2 3 4; 2 rounds, 32 visits",
        ],
    ),
    (
        "pairs 3",
        PAIRS_3,
        [
            "8: 0 1 2 3 4 5 6 7; 3 rounds, 54 visits",
            "8: 0 1 2 3 4 5 6 7; 2 rounds, 36 visits",
            "8: 0 1 2 3 4 5 6 7; 3 rounds, 54 visits",
            "8: 0 1 2 3 4 5 6 7; 2 rounds, 36 visits",
        ],
    ),
    (
        "cover 4",
        COVER_4,
        [
            "12: 0 1 2 3 4 5 6 7 8 9 10 11; 3 rounds, 90 visits",
            "12: 0 1 2 3 4 5 6 7 8 9 10 11; 3 rounds, 90 visits",
            "12: 0 1 2 3 4 5 6 7 8 9 10 11; 3 rounds, 90 visits",
            "12: 0 1 2 3 4 5 6 7 8 9 10 11; 3 rounds, 90 visits",
        ],
    ),
];

/// In some of the systems in this list, the signatures of several states are unions of signatures, and any two of these
/// unions differ in only a few pairs. In the other systems, several states have signatures that result from one long
/// signature by adding one pair. In the system `own 3`, this long signature already contains the added pair.
const NEARLY_EQUAL: [Family; 6] = [
    (
        "twins 2",
        TWINS_2,
        [
            "8: 0 1 2 3 4 5 6 7; 2 rounds, 44 visits",
            "8: 0 1 2 3 4 5 6 7; 3 rounds, 66 visits",
            "8: 0 1 2 3 4 5 6 7; 2 rounds, 44 visits",
            "8: 0 1 2 3 4 5 6 7; 3 rounds, 66 visits",
        ],
    ),
    (
        "vary 4",
        VARY_4,
        [
            "12: 0 1 2 3 4 5 6 7 8 9 10 11; 3 rounds, 72 visits",
            "12: 0 1 2 3 4 5 6 7 8 9 10 11; 3 rounds, 72 visits",
            "12: 0 1 2 3 4 5 6 7 8 9 10 11; 3 rounds, 72 visits",
            "12: 0 1 2 3 4 5 6 7 8 9 10 11; 3 rounds, 72 visits",
        ],
    ),
    (
        "varyn 4",
        VARYN_4,
        [
            "12: 0 1 2 3 4 5 6 7 8 9 10 11; 3 rounds, 72 visits",
            "12: 0 1 2 3 4 5 6 7 8 9 10 11; 2 rounds, 48 visits",
            "12: 0 1 2 3 4 5 6 7 8 9 10 11; 3 rounds, 72 visits",
            "12: 0 1 2 3 4 5 6 7 8 9 10 11; 2 rounds, 48 visits",
        ],
    ),
    (
        "fan 8",
        FAN_8,
        [
            "12: 0 1 2 3 4 5 6 7 8 9 10 11; 2 rounds, 68 visits",
            "12: 0 1 2 3 4 5 6 7 8 9 10 11; 2 rounds, 68 visits",
            "12: 0 1 2 3 4 5 6 7 8 9 10 11; 2 rounds, 68 visits",
            "12: 0 1 2 3 4 5 6 7 8 9 10 11; 2 rounds, 68 visits",
        ],
    ),
    (
        "same 8",
        SAME_8,
        [
            "5: 0 1 2 3 3 3 3 3 3 3 3 4; 2 rounds, 68 visits",
            "5: 0 1 2 3 3 3 3 3 3 3 3 4; 2 rounds, 68 visits",
            "5: 0 1 1 1 1 1 1 1 1 2 3 4; 2 rounds, 68 visits",
            "5: 0 1 1 1 1 1 1 1 1 2 3 4; 2 rounds, 68 visits",
        ],
    ),
    (
        "own 3",
        OWN_3,
        [
            "6: 0 1 2 3 4 5; 2 rounds, 24 visits",
            "3: 0 1 1 1 1 2; 2 rounds, 24 visits",
            "6: 0 1 2 3 4 5; 2 rounds, 24 visits",
            "3: 0 1 1 1 1 2; 2 rounds, 24 visits",
        ],
    ),
];

/// Each system in this list contains a chain of inert steps, and each state of this chain has a transition with a label
/// that no other state has.
const CHAINS: [Family; 3] = [
    (
        "tail 4",
        TAIL_4,
        [
            "5: 0 1 2 3 4; 2 rounds, 14 visits",
            "5: 0 1 2 3 4; 2 rounds, 14 visits",
            "5: 0 1 2 3 4; 2 rounds, 14 visits",
            "5: 0 1 2 3 4; 2 rounds, 14 visits",
        ],
    ),
    (
        "tailhub 3",
        TAILHUB_3,
        [
            "5: 0 1 2 3 4; 2 rounds, 24 visits",
            "5: 0 1 2 3 4; 2 rounds, 24 visits",
            "5: 0 1 2 3 4; 2 rounds, 24 visits",
            "5: 0 1 2 3 4; 2 rounds, 24 visits",
        ],
    ),
    (
        "tree 3",
        TREE_3,
        [
            "7: 0 1 2 3 4 5 4 6; 3 rounds, 42 visits",
            "6: 0 1 2 3 4 1 4 5; 3 rounds, 42 visits",
            "7: 0 1 2 1 3 4 5 6; 3 rounds, 42 visits",
            "6: 0 1 2 1 3 4 2 5; 3 rounds, 42 visits",
        ],
    ),
];

/// Fails if the refinement of a system in the families does not have the expected result. The function also tests each
/// system with its states numbered in reverse order.
fn check_families(alloc: Global, families: &[Family]) -> Result<(), Fail> {
    for (name, text, [strong, branching, turned_strong, turned_branching]) in families {
        check_both(alloc, name, text, strong, branching)?;
        let other = turned(alloc, text)?;
        let name = format!(in alloc; "{name}, the other way round")?;
        check_both(alloc, &name, &other, turned_strong, turned_branching)?;
    }
    Ok(())
}

/// Fails if the refinement of the system `text` does not have the expected result for strong or for branching
/// bisimilarity.
fn check_both(
    alloc: Global,
    name: &str,
    text: &str,
    strong: &str,
    branching: &str,
) -> Result<(), Fail> {
    check_row(alloc, Shown::Strong(Made::Refined), name, text, strong)?;
    check_row(
        alloc,
        Shown::Branching(Made::Refined),
        name,
        text,
        branching,
    )
}

#[test]
fn cycles(rt: HostRuntime) -> Result<(), Fail> {
    check_families(rt.alloc(), &CYCLES)
}

#[test]
fn unions(rt: HostRuntime) -> Result<(), Fail> {
    check_families(rt.alloc(), &UNIONS)
}

#[test]
fn nearly_equal(rt: HostRuntime) -> Result<(), Fail> {
    check_families(rt.alloc(), &NEARLY_EQUAL)
}

#[test]
fn chains(rt: HostRuntime) -> Result<(), Fail> {
    check_families(rt.alloc(), &CHAINS)
}
