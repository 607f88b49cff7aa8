//! Tests of whole minimisations: their quotients, their numbers of rounds and visits (reads of transitions), and the
//! largest inputs, lines, labels and hide lists that are allowed.
use super::running::{Written, check_fault, check_hiding, check_written, is_within, run_hiding};
use autbis::Counts;
use autfmt::{Fault, Hidden};
use quotient::Relation;
use std::alloc::{AllocError, Global};
use std::test::Fail;
use test_support::{
    CHAIN_OF_THREE, EXAMPLES, Example, LONE_STATE, SILENT_BESIDE_VISIBLE, SILENT_CHAIN,
    SILENT_DETOUR, STEP, TWO_EQUAL_TARGETS, TWO_EQUAL_TARGETS_TEXT, check,
};

/// Fails unless minimising the example modulo `relation` results in the quotient that the example has for this
/// relation.
fn check_example(alloc: Global, example: &Example, relation: Relation) -> Result<(), Fail> {
    let Example {
        name,
        text,
        hide,
        ..
    } = *example;
    check_hiding(
        alloc,
        name,
        text,
        hide,
        relation,
        (None, quotient(example, relation)),
    )
}

fn quotient(example: &Example, relation: Relation) -> &'static [u8] {
    match relation {
        Relation::Strong => example.strong,
        Relation::Branching => example.branching,
    }
}

#[test]
fn examples(rt: HostRuntime) -> Result<(), Fail> {
    for example in &EXAMPLES {
        check_example(rt.alloc(), example, Relation::Strong)?;
        check_example(rt.alloc(), example, Relation::Branching)?;
    }
    Ok(())
}

/// Systems with their quotients modulo strong bisimilarity.
const STRONG: [Written; 15] = [
    (
        "silent-cycle",
        b"des (0,3,2)\n(0,i,1)\n(1,i,0)\n(1,a,1)\n",
        b"des (0, 3, 2)\n(0, i, 1)\n(1, a, 1)\n(1, i, 0)\n",
    ),
    (
        "unreachable-pair",
        b"des (0,1,3)\n(1,a,2)\n",
        b"des (0, 0, 1)\n",
    ),
    (
        "two-spellings",
        b"des (0, 3, 2)\n(0, a, 1)\n(0, \"a\", 1)\n(0, a, 1)\n",
        b"des (0, 1, 2)\n(0, a, 1)\n",
    ),
    (
        "blanks-and-quotes",
        b"des(0,1,2)\n( 0 ,\"SEND !1\", 1 )\n",
        b"des (0, 1, 2)\n(0, \"SEND !1\", 1)\n",
    ),
    ("first-is-one", b"des (1,0,2)\n", b"des (0, 0, 1)\n"),
    (
        "label-order",
        b"des (0,3,2)\n(0,a,1)\n(0,B,1)\n(0,\"!x\",1)\n",
        b"des (0, 3, 2)\n(0, \"!x\", 1)\n(0, B, 1)\n(0, a, 1)\n",
    ),
    (
        "unreachable-twin",
        b"des (0,2,4)\n(0,a,2)\n(2,b,3)\n",
        b"des (0, 2, 3)\n(0, a, 1)\n(1, b, 2)\n",
    ),
    (
        "quoted-internal",
        b"des (0,1,2)\n(0,\"i\",1)\n",
        b"des (0, 1, 2)\n(0, i, 1)\n",
    ),
    (
        "odd-quoted-labels, a backslash",
        b"des (0,1,2)\n(0,\"a\\\",1)",
        b"des (0, 1, 2)\n(0, \"a\\\", 1)\n",
    ),
    (
        "odd-quoted-labels, marks inside",
        b"des (0,1,2)\n(0,\"SEND !\"x\"\",1)\n",
        b"des (0, 1, 2)\n(0, \"SEND !\"x\"\", 1)\n",
    ),
    (
        "first-is-two",
        b"des (2,2,3)\n(2,a,0)\n(0,b,1)\n",
        b"des (0, 2, 3)\n(0, a, 1)\n(1, b, 2)\n",
    ),
    (
        "first-in-cycle",
        b"des (1,2,2)\n(1,a,0)\n(0,a,1)\n",
        b"des (0, 1, 1)\n(0, a, 0)\n",
    ),
    (
        "first-leads-numbering",
        b"des (2,4,4)\n(2,a,3)\n(3,b,0)\n(0,a,3)\n(3,c,1)\n",
        b"des (0, 3, 3)\n(0, a, 2)\n(2, b, 0)\n(2, c, 1)\n",
    ),
    ("largest-header", b"des (0,0,1000000)\n", b"des (0, 0, 1)\n"),
    ("largest-header", b"des (0,0,500001)\n", b"des (0, 0, 1)\n"),
];

#[test]
fn by_strong_bisimulation(rt: HostRuntime) -> Result<(), Fail> {
    for (name, text, out) in &STRONG {
        check_written(rt.alloc(), name, text, Relation::Strong, out)?;
    }
    Ok(())
}

/// Systems with their quotients modulo branching bisimilarity.
const BRANCHING: [Written; 4] = [
    (
        "silent-cycle",
        b"des (0,3,2)\n(0,i,1)\n(1,i,0)\n(1,a,1)\n",
        b"des (0, 1, 1)\n(0, a, 0)\n",
    ),
    ("silent-loop", b"des (0,1,1)\n(0,i,0)\n", b"des (0, 0, 1)\n"),
    (
        "quoted-internal",
        b"des (0,1,2)\n(0,\"i\",1)\n",
        b"des (0, 0, 1)\n",
    ),
    (
        "quoted-internal, tau",
        b"des (0,1,2)\n(0,tau,1)\n",
        b"des (0, 1, 2)\n(0, tau, 1)\n",
    ),
];

#[test]
fn by_branching_bisimulation(rt: HostRuntime) -> Result<(), Fail> {
    for (name, text, out) in &BRANCHING {
        check_written(rt.alloc(), name, text, Relation::Branching, out)?;
    }
    Ok(())
}

/// The relation of a minimisation, the expected number of rounds, and the largest number of visits (reads of
/// transitions).
type Counted = (Relation, u32, u128);

/// Returns true if a minimisation writes `out`, returns the size of the system that it reads, and makes the expected
/// numbers of rounds and visits (reads of transitions).
fn has_counts(alloc: Global, text: &[u8], out: &[u8], counts: Counts, counted: Counted) -> bool {
    let (relation, rounds, most) = counted;
    let (answer, sink, meter) = run_hiding(alloc, text, &Hidden::none(alloc), relation);
    answer == Ok(counts)
        && sink.bytes() == out
        && is_within(&meter, rounds, counts.transitions, most)
}

const COUNTED: [(Example, Counted); 7] = [
    (LONE_STATE, (Relation::Strong, 1, 0)),
    (TWO_EQUAL_TARGETS, (Relation::Strong, 2, 8)),
    (CHAIN_OF_THREE, (Relation::Strong, 4, 18)),
    (SILENT_CHAIN, (Relation::Branching, 2, 30)),
    (SILENT_BESIDE_VISIBLE, (Relation::Branching, 2, 30)),
    (SILENT_DETOUR, (Relation::Strong, 2, 24)),
    (SILENT_DETOUR, (Relation::Branching, 2, 84)),
];

/// Returns true if a minimisation of the example makes the expected numbers of rounds and visits (reads of
/// transitions).
fn is_counted(alloc: Global, example: &Example, counted: Counted) -> bool {
    let counts = Counts {
        states: example.states,
        transitions: example.transitions,
    };
    let out = quotient(example, counted.0);
    has_counts(alloc, example.text, out, counts, counted)
}

#[test]
fn rounds_and_visits(rt: HostRuntime) -> Result<(), Fail> {
    for (example, counted) in &COUNTED {
        check(example.name, is_counted(rt.alloc(), example, *counted))?;
    }
    Ok(())
}

/// Returns an input that describes a chain of a thousand states. In the header and in each transition line, the text
/// `blank` is written after each comma.
fn thousand(alloc: Global, blank: &str) -> Result<String, AllocError> {
    let mut text = format!(in alloc; "des (0,{blank}999,{blank}1000)\n")?;
    for k in 0..999u32 {
        let next = k + 1;
        text.push_str(&format!(in alloc; "({k},{blank}a,{blank}{next})\n")?)?;
    }
    Ok(text)
}

#[test]
fn long_chain(rt: HostRuntime) -> Result<(), Fail> {
    let text = thousand(rt.alloc(), "")?;
    let out = thousand(rt.alloc(), " ")?;
    let (text, out) = (text.as_bytes(), out.as_bytes());
    let counts = Counts {
        states: 1000,
        transitions: 999,
    };
    let counted = (Relation::Strong, 1000, 1_000_998);
    check(
        "long-chain",
        has_counts(rt.alloc(), text, out, counts, counted),
    )
}

/// Returns an input that describes a chain of 200,000 states, in which every tenth transition is internal. In the
/// header and in each transition line, the text `blank` is written after each comma.
fn mixed(alloc: Global, blank: &str) -> Result<String, AllocError> {
    let mut text = format!(in alloc; "des (0,{blank}199999,{blank}200000)\n")?;
    for k in 0..199_999u32 {
        let (label, next) = (if k % 10 == 9 { "i" } else { "a" }, k + 1);
        text.push_str(&format!(in alloc; "({k},{blank}{label},{blank}{next})\n")?)?;
    }
    Ok(text)
}

/// When a block is split, its largest part keeps the ID of the block. If the largest part got a new ID instead, this
/// test would take two minutes, which is longer than a test may take.
#[test]
fn deep_chain(rt: HostRuntime) -> Result<(), Fail> {
    let text = mixed(rt.alloc(), "")?;
    let out = mixed(rt.alloc(), " ")?;
    let (text, out) = (text.as_bytes(), out.as_bytes());
    let counts = Counts {
        states: 200_000,
        transitions: 199_999,
    };
    let counted = (Relation::Strong, 199_991, 39_998_400_007);
    check(
        "deep-chain",
        has_counts(rt.alloc(), text, out, counts, counted),
    )
}

/// A long input in four parts: a prefix, a text that is repeated, the number of its repetitions, and a suffix.
type Long = (&'static str, &'static str, usize, &'static str);

fn spelled(alloc: Global, long: Long) -> Result<String, AllocError> {
    let (front, piece, times, behind) = long;
    let middle = piece.repeat(alloc, times)?;
    format!(in alloc; "{front}{middle}{behind}")
}

/// Fails unless the minimisation of the long input `text` writes `out`.
fn check_long(alloc: Global, name: &str, text: Long, out: Long) -> Result<(), Fail> {
    let text = spelled(alloc, text)?;
    let out = spelled(alloc, out)?;
    check_written(
        alloc,
        name,
        text.as_bytes(),
        Relation::Strong,
        out.as_bytes(),
    )
}

/// Fails unless the minimisation of the long input `text` ends with the error `fault`.
fn check_long_fault(alloc: Global, name: &str, text: Long, fault: Fault) -> Result<(), Fail> {
    let text = spelled(alloc, text)?;
    check_fault(alloc, name, text.as_bytes(), fault)
}

/// Tests inputs in which line 2 has 8,192 bytes, which is the largest length allowed, and inputs in which line 2 has
/// 8,193 bytes.
#[test]
fn longest_line(rt: HostRuntime) -> Result<(), Fail> {
    let (alloc, name) = (rt.alloc(), "longest-line");
    let fits = ("des (0,1,2)\n(0,a,1)", " ", 8185, "");
    check_long(alloc, name, fits, ("des (0, 1, 2)\n(0, a, 1)", "", 0, "\n"))?;
    for front in ["des (0,1,2)\n(0,a,1)", "des (0,1,2)\n(9,a,1)"] {
        let long = (front, " ", 8186, "");
        check_long_fault(alloc, name, long, Fault::LineTooLong(2))?;
    }
    Ok(())
}

/// The output for an input that has a label of 8,000 bytes.
const WRITTEN: Long = ("des (0, 1, 2)\n(0, ", "a", 8000, ", 1)\n");

/// The parts of an input before and after a label. In the first entry, the label has no quotation marks, and in the
/// second entry, it has quotation marks.
const AROUND: [(&str, &str); 2] = [
    ("des (0,1,2)\n(0,", ",1)\n"),
    ("des (0,1,2)\n(0,\"", "\",1)\n"),
];

/// Tests labels of 8,000 bytes, which are allowed, and labels of 8,001 bytes, which are not allowed. Some labels have
/// quotation marks, and others have none.
#[test]
fn longest_label(rt: HostRuntime) -> Result<(), Fail> {
    let (alloc, name) = (rt.alloc(), "longest-label");
    for (front, behind) in &AROUND {
        check_long(alloc, name, (*front, "a", 8000, *behind), WRITTEN)?;
        let long = (*front, "a", 8001, *behind);
        check_long_fault(alloc, name, long, Fault::BadEdge(2))?;
    }
    Ok(())
}

/// An example: its name, its input, its hide list (the labels to hide), the relation, the error if there is one, and
/// the output.
type Hiding = (
    &'static str,
    &'static [u8],
    &'static [u8],
    Relation,
    Option<Fault>,
    &'static [u8],
);

const HIDING: [Hiding; 7] = [
    (
        "hidden-step-goes",
        b"des (0,2,3)\n(0,a,1)\n(1,b,2)\n",
        b"a\n",
        Relation::Branching,
        None,
        b"des (0, 1, 2)\n(0, b, 1)\n",
    ),
    (
        "hidden-step-stays",
        b"des (0,2,3)\n(0,a,1)\n(1,b,2)\n",
        b"a\n",
        Relation::Strong,
        None,
        b"des (0, 2, 3)\n(0, i, 1)\n(1, b, 2)\n",
    ),
    (
        "hidden-spaced-label",
        b"des(0,1,2)\n( 0 ,\"SEND !1\", 1 )\n",
        b"\"SEND !1\"\n",
        Relation::Branching,
        None,
        b"des (0, 0, 1)\n",
    ),
    (
        "hidden-internal",
        b"des (0,2,2)\n(0,i,1)\n(0,a,1)\n",
        b"i\n",
        Relation::Branching,
        None,
        b"des (0, 2, 2)\n(0, a, 1)\n(0, i, 1)\n",
    ),
    (
        "two-labels-a-line",
        TWO_EQUAL_TARGETS_TEXT,
        b"a b\n",
        Relation::Strong,
        Some(Fault::BadHide(1)),
        b"",
    ),
    (
        "empty-hide-list",
        TWO_EQUAL_TARGETS_TEXT,
        b"",
        Relation::Strong,
        None,
        STEP,
    ),
    (
        "empty-hide-line",
        TWO_EQUAL_TARGETS_TEXT,
        b"a\n\n",
        Relation::Strong,
        Some(Fault::BadHide(2)),
        b"",
    ),
];

#[test]
fn hidden_labels(rt: HostRuntime) -> Result<(), Fail> {
    for (name, text, list, relation, fault, out) in &HIDING {
        check_hiding(rt.alloc(), name, text, list, *relation, (*fault, out))?;
    }
    Ok(())
}

/// Minimises the example `two-equal-targets` with a hide list (the labels to hide) of `lines` lines. Fails unless this
/// minimisation ends with the error `fault` and the output `out`.
fn check_long_list(
    alloc: Global,
    lines: usize,
    fault: Option<Fault>,
    out: &[u8],
) -> Result<(), Fail> {
    let list = "a\n".repeat(alloc, lines)?;
    let (name, text) = ("longest-hide-list", TWO_EQUAL_TARGETS_TEXT);
    check_hiding(
        alloc,
        name,
        text,
        list.as_bytes(),
        Relation::Strong,
        (fault, out),
    )
}

/// Tests hide lists (lists of labels to hide) of 100,000 lines, which are allowed, and of 100,001 lines, which are not
/// allowed.
#[test]
fn longest_hide_list(rt: HostRuntime) -> Result<(), Fail> {
    check_long_list(rt.alloc(), 100_000, None, b"des (0, 1, 2)\n(0, i, 1)\n")?;
    check_long_list(rt.alloc(), 100_001, Some(Fault::TooManyHidden), b"")
}
