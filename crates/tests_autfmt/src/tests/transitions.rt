//! Tests of transition lines, of the number of transition lines, and of inputs that end or fail after some number of
//! bytes.
use super::reading::{
    Faulty, Written, check_all_written, check_fault, check_faults, check_written,
};
use autfmt::Fault::{
    BadEdge, BadHeader, Device, ExtraText, MissingEdges, SourceRange, TargetRange,
};
use autfmt::{Fault, Limits};
use std::alloc::{AllocError, Global};
use std::test::Fail;
use test_support::{STEP, TWO_EQUAL_TARGETS_TEXT};

const TWO: &[u8] = TWO_EQUAL_TARGETS_TEXT;

/// An example: a line of an input, and the line that is then written to the output.
type Line = (&'static [u8], &'static [u8]);

const GOOD_LINES: [Line; 15] = [
    (b"(0,a,1)", b"(0, a, 1)"),
    (b"(0, \"a\", 1)", b"(0, a, 1)"),
    (b"(0,\"a, b)\",1)", b"(0, \"a, b)\", 1)"),
    (b"(0,\" \",1)", b"(0, \" \", 1)"),
    (b"(0,_x9,1)", b"(0, _x9, 1)"),
    (b"(0,\"a\"b\",1)", b"(0, \"a\"b\", 1)"),
    (b"(0,\"a\",\"b\",1)", b"(0, \"a\",\"b\", 1)"),
    (b" ( 0\t,\ta , 1 ) \r", b"(0, a, 1)"),
    // odd-quoted-labels
    (b"(0,\"a\\\",1)", b"(0, \"a\\\", 1)"),
    (b"(0,\"SEND !\"x\"\",1)", b"(0, \"SEND !\"x\"\", 1)"),
    // blanks-and-quotes
    (b"( 0 ,\"SEND !1\", 1 )", b"(0, \"SEND !1\", 1)"),
    // quoted-internal
    (b"(0,\"i\",1)", b"(0, i, 1)"),
    (b"(0,tau,1)", b"(0, tau, 1)"),
    (b"(0,_9,1)", b"(0, _9, 1)"),
    (b"(0,\"9x\",1)", b"(0, \"9x\", 1)"),
];

const BAD_LINES: [&[u8]; 18] = [
    b"",
    b"0,a,1",
    b"(0,a,1",
    b"(0,a,1),",
    b"(0,a,1)x",
    b"(00,a,1)",
    b"(0,9x,1)",
    b"(0,a!1,1)",
    b"(0,a b,1)",
    b"(0,,1)",
    b"(0,\"\",1)",
    b"(0,\"a\"b,1)",
    b"(0,\"a\tb\",1)",
    b"(0,\"a,1)",
    // bytes-outside-labels
    b"(0,\"a\x00\",1)",
    b"(0,\"a\x0D\",1)",
    b"(0,\"a\x7F\",1)",
    b"(0,\"a\x80\",1)",
];

/// Returns an input that consists of the header `header` and the line `line`.
fn under(alloc: Global, header: &str, line: &[u8]) -> Result<Vec<u8>, AllocError> {
    let mut text = Vec::from_slice(alloc, header.as_bytes())?;
    append_line(line, &mut text)?;
    Ok(text)
}

fn append_line(line: &[u8], text: &mut Vec<u8>) -> Result<(), AllocError> {
    text.extend_from_slice(line)?;
    text.push(b'\n')?;
    Ok(())
}

/// Fails unless the line `line` is read as a transition, and the transition is written as the line `wanted`.
fn check_line(alloc: Global, line: &[u8], wanted: &[u8]) -> Result<(), Fail> {
    let text = under(alloc, "des (0,1,2)\n", line)?;
    let wanted = under(alloc, "des (0, 1, 2)\n", wanted)?;
    check_written(alloc, "good line", &text, b"", &wanted)
}

#[test]
fn good_lines(rt: HostRuntime) -> Result<(), Fail> {
    for (line, written) in &GOOD_LINES {
        check_line(rt.alloc(), line, written)?;
    }
    Ok(())
}

/// Fails unless reading the line ends with the error `BadEdge`, which says that the line is not a transition.
fn check_no_line(alloc: Global, line: &[u8]) -> Result<(), Fail> {
    let text = under(alloc, "des (0,1,2)\n", line)?;
    let wanted = Some(BadEdge(2));
    check_fault(alloc, "bad line", &text, None, &Limits::file(), wanted)
}

#[test]
fn bad_lines(rt: HostRuntime) -> Result<(), Fail> {
    for line in &BAD_LINES {
        check_no_line(rt.alloc(), line)?;
    }
    Ok(())
}

const CHAIN: &[u8] = b"des (0, 2, 3)\n(0, a, 1)\n(1, b, 2)\n";

const GOOD: [Written; 9] = [
    ("two-equal-targets", TWO, b"", TWO),
    (
        "two-spellings",
        b"des (0, 3, 2)\n(0, a, 1)\n(0, \"a\", 1)\n(0, a, 1)\n",
        b"",
        b"des (0, 3, 2)\n(0, a, 1)\n(0, a, 1)\n(0, a, 1)\n",
    ),
    (
        "first-is-two",
        b"des (2,2,3)\n(2,a,0)\n(0,b,1)\n",
        b"",
        b"des (2, 2, 3)\n(0, b, 1)\n(2, a, 0)\n",
    ),
    ("carriage-returns", b"des (0,1,2)\r\n(0,a,1)\r\n", b"", STEP),
    ("no line feed", b"des (0,1,2)\n(0,a,1)", b"", STEP),
    ("in order", b"des (0,2,3)\n(0,a,1)\n(1,b,2)\n", b"", CHAIN),
    (
        "reordered-lines",
        b"des (0,2,3)\n(1,b,2)\n(0,a,1)\n",
        b"",
        CHAIN,
    ),
    (
        "label-order",
        b"des (0,3,2)\n(0,a,1)\n(0,B,1)\n(0,\"!x\",1)\n",
        b"",
        b"des (0, 3, 2)\n(0, \"!x\", 1)\n(0, B, 1)\n(0, a, 1)\n",
    ),
    (
        "repeats, targets and sources",
        b"des (2,5,12)\n(10,ab,3)\n(9,a,11)\n(9,ab,2)\n(9,a,2)\n(9,a,2)\n",
        b"",
        b"des (2, 5, 12)\n(9, a, 2)\n(9, a, 2)\n(9, a, 11)\n(9, ab, 2)\n(10, ab, 3)\n",
    ),
];

#[test]
fn good_texts(rt: HostRuntime) -> Result<(), Fail> {
    check_all_written(rt.alloc(), &GOOD)
}

const FAULTY: [Faulty; 12] = [
    (
        "promised-and-found",
        b"des (0,2,2)\n(0,a,1)\n",
        MissingEdges(1),
    ),
    (
        "promised-and-found",
        b"des (0,1,2)\n(0,a,1)\n(1,a,0)\n",
        ExtraText(3),
    ),
    (
        "promised-and-found",
        b"des (0,1,2)\n(0,a,2)\n",
        TargetRange(2),
    ),
    (
        "promised-and-found",
        b"des (0,1,2)\n(2,a,2)\n",
        SourceRange(2),
    ),
    (
        "source-past-32-bits",
        b"des (0,1,2)\n(4294967296,a,0)\n",
        SourceRange(2),
    ),
    (
        "least-line-decides",
        b"des (0,1,2)\n(0,a,9)\nx\n",
        TargetRange(2),
    ),
    (
        "text-after-bracket",
        b"des (0,2,2)\n(0,a,1)\n(0,a,1)x\n",
        BadEdge(3),
    ),
    ("empty-line-inside", b"des (0,2,2)\n(0,a,1)\n\n", BadEdge(3)),
    (
        "empty-line-after-end",
        b"des (0,1,2)\n(0,a,1)\n\n",
        ExtraText(3),
    ),
    ("blank-line-after-end", b"des (0,0,1)\n \n", ExtraText(2)),
    ("byte after the end", b"des (0,0,1)\nx", ExtraText(2)),
    ("none of the most", b"des (0,10000000,1)\n", MissingEdges(0)),
];

#[test]
fn faulty_texts(rt: HostRuntime) -> Result<(), Fail> {
    check_faults(rt.alloc(), &Limits::file(), &FAULTY)
}

/// Inputs, and the error that must be returned for each of them if reading fails after its last byte.
const FAILING: [Faulty; 7] = [
    ("whole", TWO, Device),
    ("failing-ends", b"des (0, 2, 3)\n(0, a, 1)\n", Device),
    ("unjudged-last-line", b"des (0,1,2)\n(0,a,9)", Device),
    (
        "judged-last-line",
        b"des (0,1,2)\n(0,a,9)\n",
        TargetRange(2),
    ),
    (
        "judged-before-failure",
        b"des (0,1,2)\n(5,a,1)\n",
        SourceRange(2),
    ),
    ("judged-extra-byte", b"des (0,0,1)\nx", ExtraText(2)),
    ("no header", b"x\n", BadHeader),
];

#[test]
fn failing_sources(rt: HostRuntime) -> Result<(), Fail> {
    for (name, text, fault) in &FAILING {
        let end = Some(text.len());
        check_fault(rt.alloc(), name, text, end, &Limits::file(), Some(*fault))?;
    }
    Ok(())
}

/// Returns the error that reading must return if the input of `two-equal-targets` ends after k bytes.
fn cut_after(k: usize) -> Option<Fault> {
    match k {
        0..=12 => Some(BadHeader),
        13 | 14 => Some(MissingEdges(0)),
        15..=22 => Some(BadEdge(2)),
        23 | 24 => Some(MissingEdges(1)),
        25..=32 => Some(BadEdge(3)),
        _ => None,
    }
}

#[test]
fn cut_after_each_byte(rt: HostRuntime) -> Result<(), Fail> {
    for (k, _) in TWO.iter().enumerate() {
        let text = &TWO[..k];
        check_fault(rt.alloc(), "cut", text, None, &Limits::file(), cut_after(k))?;
    }
    Ok(())
}

#[test]
fn failing_after_each_byte(rt: HostRuntime) -> Result<(), Fail> {
    let (text, wanted) = (TWO, Some(Device));
    for k in 0..35 {
        check_fault(
            rt.alloc(),
            "failing",
            text,
            Some(k),
            &Limits::file(),
            wanted,
        )?;
    }
    Ok(())
}
