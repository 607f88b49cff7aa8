//! Tests of header lines, and of limits on the numbers of states and transitions.
use super::reading::{Faulty, Written, check_all_written, check_faults};
use autfmt::Fault::{BadHeader, FirstState, NoStates, TooManyStates, TooManyTransitions};
use autfmt::Limits;
use std::test::Fail;
use test_support::check;

const THREE: &[u8] = b"des (0, 3, 4)\n(0, a, 3)\n(0, a, 3)\n(0, a, 3)\n";

const GOOD: [Written; 9] = [
    ("lone-state", b"des (0,0,1)\n", b"", b"des (0, 0, 1)\n"),
    ("first-is-one", b"des (1,0,2)\n", b"", b"des (1, 0, 2)\n"),
    (
        "carriage-returns",
        b"des (0,0,1)\r\n",
        b"",
        b"des (0, 0, 1)\n",
    ),
    (
        "largest-header",
        b"des (0,0,1000000)\n",
        b"",
        b"des (0, 0, 1000000)\n",
    ),
    (
        "largest-header, half of it",
        b"des (0,0,500001)\n",
        b"",
        b"des (0, 0, 500001)\n",
    ),
    ("as written", THREE, b"", THREE),
    (
        "no blanks",
        b"des(0,3,4)\n(0,a,3)\n(0,a,3)\n(0,a,3)\n",
        b"",
        THREE,
    ),
    (
        "many blanks",
        b"  des ( 0 , 3 , 4 )  \n(0,a,3)\n(0,a,3)\n(0,a,3)",
        b"",
        THREE,
    ),
    (
        "a tab and a carriage return",
        b"\tdes (0,3,4)\r\n(0,a,3)\n(0,a,3)\n(0,a,3)\n",
        b"",
        THREE,
    ),
];

#[test]
fn good_headers(rt: HostRuntime) -> Result<(), Fail> {
    check_all_written(rt.alloc(), &GOOD)
}

const NO_HEADERS: [Faulty; 14] = [
    ("empty-text", b"", BadHeader),
    ("one-line-feed", b"\n", BadHeader),
    ("eleven digits", b"des (0,0,10000000000)\n", BadHeader),
    ("eleven digits", b"des (0,12345678901,4)\n", BadHeader),
    ("no brackets", b"des 0,3,4\n", BadHeader),
    ("large letters", b"DES (0,3,4)\n", BadHeader),
    ("a blank inside", b"d es (0,3,4)\n", BadHeader),
    ("two numbers", b"des (0,3)\n", BadHeader),
    ("a leading zero", b"des (0,03,4)\n", BadHeader),
    ("more behind", b"des (0,3,4) x\n", BadHeader),
    ("a sign", b"des (0,-3,4)\n", BadHeader),
    ("a label", b"des (0,a,4)\n", BadHeader),
    ("cut", b"des (0,3,", BadHeader),
    ("blanks", b" \n", BadHeader),
];

#[test]
fn no_headers(rt: HostRuntime) -> Result<(), Fail> {
    check_faults(rt.alloc(), &Limits::file(), &NO_HEADERS)
}

const OUT_OF_RANGE: [Faulty; 7] = [
    ("first-out-of-range", b"des (2,0,2)\n", FirstState),
    ("first-out-of-range", b"des (1,0,0)\n", NoStates),
    ("ten-digit-numbers", b"des (9999999999,0,1)\n", FirstState),
    (
        "ten-digit-numbers",
        b"des (0,0,9999999999)\n",
        TooManyStates,
    ),
    (
        "states-none-many-transitions",
        b"des (0,9999999999,0)\n",
        NoStates,
    ),
    ("largest-header", b"des (0,0,1000001)\n", TooManyStates),
    (
        "largest-header",
        b"des (0,10000001,1)\n",
        TooManyTransitions,
    ),
];

#[test]
fn out_of_range(rt: HostRuntime) -> Result<(), Fail> {
    check_faults(rt.alloc(), &Limits::file(), &OUT_OF_RANGE)
}

const BEYOND_THREE: [Faulty; 2] = [
    ("states-before-transitions", b"des (0,3,4)\n", TooManyStates),
    ("too-many-transitions", b"des (0,3,3)\n", TooManyTransitions),
];

#[test]
fn beyond_limits(rt: HostRuntime) -> Result<(), Fail> {
    match Limits::new(3, 2) {
        Some(lim) => check_faults(rt.alloc(), &lim, &BEYOND_THREE),
        None => check("limits", false),
    }
}

/// An example: a number of states, a number of transitions, and whether `Limits::new` accepts these numbers.
const LIMITS: [(u32, u32, bool); 6] = [
    (0, 5, false),
    (1, 0, true),
    (500_001, 0, true),
    (1_000_000, 10_000_000, true),
    (1_000_001, 0, false),
    (1, 10_000_001, false),
];

/// Returns true if `Limits::new` accepts the numbers `states` and `transitions`, and the limits that it returns have
/// these numbers.
fn are_limits(states: u32, transitions: u32) -> bool {
    match Limits::new(states, transitions) {
        Some(limits) => limits.states() == states && limits.transitions() == transitions,
        None => false,
    }
}

#[test]
fn limits(_rt: HostRuntime) -> Result<(), Fail> {
    for (states, transitions, wanted) in &LIMITS {
        check("limits", are_limits(*states, *transitions) == *wanted)?;
    }
    let file = Limits::file();
    check(
        "limits of a file",
        file.states() == 1_000_000 && file.transitions() == 10_000_000,
    )
}
