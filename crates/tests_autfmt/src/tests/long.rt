//! Tests of long lines, labels and inputs.
use super::reading::{check_fault, check_written};
use autfmt::Fault::{BadEdge, ExtraText, LineTooLong};
use autfmt::{Fault, Limits};
use std::alloc::{AllocError, Global};
use std::test::Fail;
use test_support::STEP;

/// Returns a text of three parts: the text `front`, the byte `byte` repeated `times` times, and the text `behind`.
pub(crate) fn padded(
    alloc: Global,
    front: &str,
    byte: u8,
    times: usize,
    behind: &str,
) -> Result<Vec<u8>, AllocError> {
    let mut text = Vec::from_slice(alloc, front.as_bytes())?;
    append(byte, times, behind, &mut text)?;
    Ok(text)
}

fn append(byte: u8, times: usize, behind: &str, text: &mut Vec<u8>) -> Result<(), AllocError> {
    for _ in 0..times {
        text.push(byte)?;
    }
    text.extend_from_slice(behind.as_bytes())?;
    Ok(())
}

/// An example: its name, the arguments with which the function `padded` makes its input, and the expected error.
type Long = (&'static str, &'static str, u8, usize, &'static str, Fault);

const LONG: [Long; 6] = [
    // In the first example, line 1 has 8,193 bytes and no line feed. In the next two examples, line 2 has 8,193 bytes.
    ("long-header", "des (0,0,1)", b' ', 8182, "", LineTooLong(1)),
    (
        "longest-line, a byte more",
        "des (0,1,2)\n(0,a,1)",
        b' ',
        8186,
        "\n",
        LineTooLong(2),
    ),
    (
        "longest-line, out of range",
        "des (0,1,2)\n(9,a,1)",
        b' ',
        8186,
        "\n",
        LineTooLong(2),
    ),
    (
        "long-line-after-end",
        "des (0,0,1)\n",
        b'x',
        9000,
        "\n",
        ExtraText(2),
    ),
    (
        "longest-label, a byte more",
        "des (0,1,2)\n(0,",
        b'a',
        8001,
        ",1)\n",
        BadEdge(2),
    ),
    (
        "longest-label, quoted, a byte more",
        "des (0,1,2)\n(0,\"",
        b'a',
        8001,
        "\",1)\n",
        BadEdge(2),
    ),
];

/// Fails unless reading the input of the example ends with the error of the example.
fn check_long(alloc: Global, long: &Long) -> Result<(), Fail> {
    let (name, front, byte, times, behind, wanted) = *long;
    let text = padded(alloc, front, byte, times, behind)?;
    check_fault(alloc, name, &text, None, &Limits::file(), Some(wanted))
}

#[test]
fn long_texts(rt: HostRuntime) -> Result<(), Fail> {
    for long in &LONG {
        check_long(rt.alloc(), long)?;
    }
    Ok(())
}

/// If reading fails after 8,193 bytes without a line feed, then the error is that line 1 is too long, and not that
/// reading failed.
#[test]
fn judged_long_line(rt: HostRuntime) -> Result<(), Fail> {
    let text = padded(rt.alloc(), "", b'x', 8193, "")?;
    let (end, wanted) = (Some(text.len()), Some(LineTooLong(1)));
    check_fault(
        rt.alloc(),
        "judged-long-line",
        &text,
        end,
        &Limits::file(),
        wanted,
    )
}

/// The parts of an input or an output before and after a label.
type Around = (&'static str, &'static str);

const PLAIN: Around = ("des (0, 1, 2)\n(0, ", ", 1)\n");

const QUOTED: Around = ("des (0, 1, 2)\n(0, \"", "\", 1)\n");

/// Each entry consists of three parts. The first part is a byte, which is repeated to make a label of the largest
/// length. The second part is the text around this label in the input, and the third part is the text around this label
/// in the output.
const LABELS: [(u8, Around, Around); 3] = [
    (b'a', PLAIN, PLAIN),
    (b'a', QUOTED, PLAIN),
    (b' ', QUOTED, QUOTED),
];

/// Fails unless a label of 8,000 bytes is read and written correctly. The argument `read` is the text around the label
/// in the input, and `written` is the text around the label in the output.
fn check_label(alloc: Global, byte: u8, read: Around, written: Around) -> Result<(), Fail> {
    let text = padded(alloc, read.0, byte, 8000, read.1)?;
    let wanted = padded(alloc, written.0, byte, 8000, written.1)?;
    check_written(alloc, "longest-label", &text, b"", &wanted)
}

#[test]
fn longest_label(rt: HostRuntime) -> Result<(), Fail> {
    for (byte, read, written) in &LABELS {
        check_label(rt.alloc(), *byte, *read, *written)?;
    }
    Ok(())
}

#[test]
fn longest_line(rt: HostRuntime) -> Result<(), Fail> {
    let text = padded(rt.alloc(), "des (0,1,2)\n(0,a,1)", b' ', 8185, "\n")?;
    check_written(rt.alloc(), "longest-line", &text, b"", STEP)
}

/// Fails if `pad` carriage returns at the end of the header line change the output.
fn check_pad(alloc: Global, pad: usize) -> Result<(), Fail> {
    let text = padded(alloc, "des (0,1,2)", b'\r', pad, "\n(0,a,1)\r\n")?;
    check_written(alloc, "any-pieces", &text, b"", STEP)
}

/// The header line ends with a number of carriage returns. The test tries thirty such numbers, so that the boundary
/// between two chunks of 4,096 bytes is before, inside and after each token and each carriage return of the next line.
#[test]
fn any_pieces(rt: HostRuntime) -> Result<(), Fail> {
    for pad in 4070..4100 {
        check_pad(rt.alloc(), pad)?;
    }
    Ok(())
}

/// Returns an input that describes a chain of `steps` transitions.
fn chain(alloc: Global, steps: u64) -> Result<String, AllocError> {
    let mut text = format!(in alloc; "des (0, {steps}, 10000)\n")?;
    append_steps(alloc, steps, &mut text)?;
    Ok(text)
}

fn append_steps(alloc: Global, steps: u64, text: &mut String) -> Result<(), AllocError> {
    for k in 0..steps {
        text.push_str(&format!(in alloc; "({k}, a, {})\n", k + 1)?)?;
    }
    Ok(())
}

#[test]
fn long_chain(rt: HostRuntime) -> Result<(), Fail> {
    let text = chain(rt.alloc(), 9999)?;
    let text = text.as_bytes();
    check_written(rt.alloc(), "long-chain", text, b"", text)
}

/// Appends transitions with a thousand different labels. For each label, `times` equal lines are appended.
fn append_labels(alloc: Global, times: usize, text: &mut String) -> Result<(), AllocError> {
    for k in 1000..2000 {
        let line = format!(in alloc; "(0, l{k}, 0)\n")?;
        append_times(&line, times, text)?;
    }
    Ok(())
}

fn append_times(line: &str, times: usize, text: &mut String) -> Result<(), AllocError> {
    for _ in 0..times {
        text.push_str(line)?;
    }
    Ok(())
}

/// Returns an input with two thousand transitions and a thousand different labels. The sequence of all labels is
/// repeated `rounds` times, and in each repetition every label is on `times` equal lines.
fn two_thousand(alloc: Global, rounds: usize, times: usize) -> Result<String, AllocError> {
    let mut text = String::from_str(alloc, "des (0, 2000, 1)\n")?;
    for _ in 0..rounds {
        append_labels(alloc, times, &mut text)?;
    }
    Ok(text)
}

/// Tests an input with a thousand labels, each of which is on two lines that are far apart. The reader has a cache for
/// the IDs of labels, which is a table with few entries. Many of the thousand labels share an entry of this table.
#[test]
fn many_labels(rt: HostRuntime) -> Result<(), Fail> {
    let text = two_thousand(rt.alloc(), 2, 1)?;
    let wanted = two_thousand(rt.alloc(), 1, 2)?;
    check_written(
        rt.alloc(),
        "many labels",
        text.as_bytes(),
        b"",
        wanted.as_bytes(),
    )
}
