//! Tests of minimisation.
use crate::named::{
    CHAIN_OF_THREE, LABEL_ORDER, LONE_STATE, QUOTED_INTERNAL, SILENT_BESIDE_VISIBLE, SILENT_CHAIN,
    SILENT_CYCLE, SILENT_DETOUR, SILENT_LOOP, TWO_EQUAL_TARGETS, TWO_SPELLINGS,
};
use crate::showing::{Row, Shown, check_rows};
use crate::texts::append_spelled;
use lts::{Counter, Lts, Memory, Meter};
use quotient::{Relation, minimise};
use std::alloc::Global;
use std::test::Fail;

const STRONG: [Row; 15] = [
    ("lone-state", LONE_STATE, "1 rounds: 0 of 1"),
    (
        "two-equal-targets",
        TWO_EQUAL_TARGETS,
        "2 rounds: 0 of 2; 0 a 1",
    ),
    ("unreachable-pair", "0 of 3; 1 a 2", "2 rounds: 0 of 1"),
    (
        "chain-of-three",
        CHAIN_OF_THREE,
        "4 rounds: 0 of 4; 0 a 1; 1 a 2; 2 a 3",
    ),
    ("two-spellings", TWO_SPELLINGS, "2 rounds: 0 of 2; 0 a 1"),
    (
        "blanks-and-quotes",
        "0 of 2; 0 SEND !1 1",
        "2 rounds: 0 of 2; 0 SEND !1 1",
    ),
    ("first-is-one", "1 of 2", "1 rounds: 0 of 1"),
    (
        "label-order",
        LABEL_ORDER,
        "2 rounds: 0 of 2; 0 a 1; 0 B 1; 0 !x 1",
    ),
    (
        "unreachable-twin",
        "0 of 4; 0 a 2; 2 b 3",
        "2 rounds: 0 of 3; 0 a 1; 1 b 2",
    ),
    (
        "first-is-two",
        "2 of 3; 2 a 0; 0 b 1",
        "2 rounds: 0 of 3; 0 a 1; 1 b 2",
    ),
    (
        "first-in-cycle",
        "1 of 2; 1 a 0; 0 a 1",
        "1 rounds: 0 of 1; 0 a 0",
    ),
    (
        "first-leads-numbering",
        "2 of 4; 2 a 3; 3 b 0; 0 a 3; 3 c 1",
        "2 rounds: 0 of 3; 0 a 2; 2 b 0; 2 c 1",
    ),
    (
        "silent-cycle",
        SILENT_CYCLE,
        "2 rounds: 0 of 2; 0 i 1; 1 i 0; 1 a 1",
    ),
    (
        "quoted-internal",
        QUOTED_INTERNAL,
        "2 rounds: 0 of 2; 0 i 1",
    ),
    (
        "silent-detour",
        SILENT_DETOUR,
        "2 rounds: 0 of 5; 0 i 1; 0 a 3; 1 a 2; 2 i 3; 3 b 4",
    ),
];

const BRANCHING: [Row; 10] = [
    (
        "two-equal-targets",
        TWO_EQUAL_TARGETS,
        "2 rounds: 0 of 2; 0 a 1",
    ),
    (
        "silent-choice",
        "0 of 2; 0 i 1; 0 a 1",
        "2 rounds: 0 of 2; 0 i 1; 0 a 1",
    ),
    ("silent-cycle", SILENT_CYCLE, "1 rounds: 0 of 1; 0 a 0"),
    ("silent-loop", SILENT_LOOP, "1 rounds: 0 of 1"),
    ("silent-chain", SILENT_CHAIN, "2 rounds: 0 of 2; 0 a 1"),
    (
        "silent-beside-visible",
        SILENT_BESIDE_VISIBLE,
        "2 rounds: 0 of 3; 0 i 1; 0 a 2; 1 b 2",
    ),
    ("quoted-internal", QUOTED_INTERNAL, "1 rounds: 0 of 1"),
    (
        "quoted-internal, tau",
        "0 of 2; 0 tau 1",
        "2 rounds: 0 of 2; 0 tau 1",
    ),
    (
        "silent-detour",
        SILENT_DETOUR,
        "2 rounds: 0 of 3; 0 a 1; 1 b 2",
    ),
    (
        "hidden-step-goes, hidden",
        "0 of 3; 0 i 1; 1 b 2",
        "2 rounds: 0 of 2; 0 b 1",
    ),
];

/// Returns a text with the number of rounds of the minimisation, and with the quotient in the short notation of the
/// file `texts`.
pub(crate) fn shown(alloc: Global, l: &Lts<Counter>, relation: Relation) -> Result<String, Memory> {
    let mut m = Counter::new();
    let q = minimise(alloc, l, relation, &mut m)?;
    counted(alloc, &q, m.rounds())
}

fn counted(alloc: Global, q: &Lts<Counter>, rounds: u128) -> Result<String, Memory> {
    let mut text = format!(in alloc; "{rounds} rounds: ")?;
    append_spelled(alloc, q, &mut text)?;
    Ok(text)
}

#[test]
fn by_strong_bisimulation(rt: HostRuntime) -> Result<(), Fail> {
    check_rows(rt.alloc(), Shown::Quotient(Relation::Strong), &STRONG)
}

#[test]
fn by_branching_bisimulation(rt: HostRuntime) -> Result<(), Fail> {
    check_rows(rt.alloc(), Shown::Quotient(Relation::Branching), &BRANCHING)
}
