//! Tests of hide lists (lists of labels to hide): their labels, their errors, and their effect on a system.
use super::long::padded;
use super::reading::{SIZES, Written, check_all_written, check_written, hidden_by};
use autfmt::Fault;
use autfmt::Fault::{BadHide, Device, LineTooLong, TooManyHidden};
use std::alloc::{AllocError, Global};
use std::test::Fail;
use test_support::{STEP, TWO_EQUAL_TARGETS_TEXT, check};

const TWO: &[u8] = b"des (0,2,2)\n(0,a,1)\n(0,b,1)\n";

const SPACED: &[u8] = b"des(0,1,2)\n( 0 ,\"SEND !1\", 1 )\n";

const SILENT: &[u8] = b"des (0,2,2)\n(0,i,1)\n(0,a,1)\n";

const CHOICE: &[u8] = b"des (0, 2, 2)\n(0, a, 1)\n(0, i, 1)\n";

const HIDDEN: [Written; 9] = [
    (
        "hidden-step-stays",
        b"des (0,2,3)\n(0,a,1)\n(1,b,2)\n",
        b"a",
        b"des (0, 2, 3)\n(0, i, 1)\n(1, b, 2)\n",
    ),
    (
        "hidden-quoted",
        TWO,
        b"\"a\"\nb\n",
        b"des (0, 2, 2)\n(0, i, 1)\n(0, i, 1)\n",
    ),
    (
        "twice",
        TWO,
        b"a\na\n",
        b"des (0, 2, 2)\n(0, b, 1)\n(0, i, 1)\n",
    ),
    (
        "not there",
        TWO,
        b"c",
        b"des (0, 2, 2)\n(0, a, 1)\n(0, b, 1)\n",
    ),
    (
        "not hidden",
        SPACED,
        b"",
        b"des (0, 1, 2)\n(0, \"SEND !1\", 1)\n",
    ),
    (
        "hidden-spaced-label",
        SPACED,
        b"\"SEND !1\"\n",
        b"des (0, 1, 2)\n(0, i, 1)\n",
    ),
    ("silent-choice", SILENT, b"", CHOICE),
    ("hidden-internal", SILENT, b"i\n", CHOICE),
    (
        "empty-hide-list",
        TWO_EQUAL_TARGETS_TEXT,
        b"",
        TWO_EQUAL_TARGETS_TEXT,
    ),
];

#[test]
fn hidden_labels(rt: HostRuntime) -> Result<(), Fail> {
    check_all_written(rt.alloc(), &HIDDEN)
}

/// Lines of a hide list (a list of labels to hide) that all hide the label `a`.
const GOOD_LINES: [&[u8]; 4] = [b"a", b"\"a\"", b"  a\t", b"\t\"a\" \r"];

#[test]
fn good_lines(rt: HostRuntime) -> Result<(), Fail> {
    let wanted = b"des (0, 1, 2)\n(0, i, 1)\n";
    for line in &GOOD_LINES {
        check_written(rt.alloc(), "good line", STEP, line, wanted)?;
    }
    Ok(())
}

/// An example: its name, its hide list (the labels to hide), the number of bytes after which reading the list fails (or
/// `None` if it does not fail), and the expected error.
type Faulty = (&'static str, &'static [u8], Option<usize>, Fault);

const FAULTY: [Faulty; 13] = [
    ("two-labels-a-line", b"a b\n", None, BadHide(1)),
    ("empty-hide-line", b"a\n\n", None, BadHide(2)),
    ("unjudged last line", b"a\nb b", Some(5), Device),
    ("judged last line", b"a\nb b\n", Some(6), BadHide(2)),
    ("empty", b"\n", None, BadHide(1)),
    ("a blank", b" \n", None, BadHide(1)),
    ("two words", b"a b\n", None, BadHide(1)),
    ("a digit", b"9\n", None, BadHide(1)),
    ("empty, quoted", b"\"\"\n", None, BadHide(1)),
    ("not closed", b"\"a\n", None, BadHide(1)),
    ("not opened", b"a\"\n", None, BadHide(1)),
    ("more behind", b"\"a\" b\n", None, BadHide(1)),
    ("failing", b"a\n", Some(2), Device),
];

/// Fails unless reading the hide list (the list of labels to hide) ends with the error `wanted`. The list is read in
/// chunks of each tested size.
fn check_fault(
    alloc: Global,
    name: &str,
    list: &[u8],
    place: Option<usize>,
    wanted: Fault,
) -> Result<(), Fail> {
    for k in SIZES {
        let found = hidden_by(alloc, list, place, k).err();
        check(name, found == Some(wanted))?;
    }
    Ok(())
}

#[test]
fn faulty_lists(rt: HostRuntime) -> Result<(), Fail> {
    for (name, list, place, wanted) in &FAULTY {
        check_fault(rt.alloc(), name, list, *place, *wanted)?;
    }
    Ok(())
}

#[test]
fn long_line(rt: HostRuntime) -> Result<(), Fail> {
    let list = padded(rt.alloc(), "a\n", b'x', 8193, "")?;
    check_fault(rt.alloc(), "long line", &list, None, LineTooLong(2))
}

/// Returns a hide list (a list of labels to hide) of `count` lines. Each line is the label `a`.
fn lines(alloc: Global, count: usize) -> Result<Vec<u8>, AllocError> {
    let mut list = Vec::new(alloc);
    for _ in 0..count {
        list.extend_from_slice(b"a\n")?;
    }
    Ok(list)
}

#[test]
fn longest_hide_list(rt: HostRuntime) -> Result<(), Fail> {
    let list = lines(rt.alloc(), 100_000)?;
    let wanted = b"des (0, 1, 2)\n(0, i, 1)\n";
    check_written(rt.alloc(), "longest-hide-list", STEP, &list, wanted)
}

/// Fails unless the hide list (the list of labels to hide) is rejected because it has too many lines. The list is read
/// twice: from a source that never fails, and from a source that fails after its last byte. A source is the object from
/// which the list is read.
fn check_too_long(alloc: Global, list: &[u8]) -> Result<(), Fail> {
    for place in [None, Some(list.len())] {
        check_fault(alloc, "longest-hide-list", list, place, TooManyHidden)?;
    }
    Ok(())
}

#[test]
fn too_long_hide_list(rt: HostRuntime) -> Result<(), Fail> {
    let list = lines(rt.alloc(), 100_001)?;
    check_too_long(rt.alloc(), &list)
}
