//! Tests of minimisations modulo strong bisimilarity that end with an error. Either the input has an error, or the
//! source (the object from which the input is read) fails, or the sink (the object to which the output is written)
//! fails.
use super::running::{Flow, check_ends, check_fault, check_written};
use autfmt::Fault;
use quotient::Relation;
use std::alloc::Global;
use std::test::Fail;
use test_support::{STEP, TWO_EQUAL_TARGETS_TEXT, check};

const TWO: &[u8] = TWO_EQUAL_TARGETS_TEXT;

/// An incorrect input and its error.
type Faulty = (&'static [u8], Fault);

const REFUSED: [Faulty; 16] = [
    // empty-text, promised-and-found
    (b"", Fault::BadHeader),
    (b"des (0,2,2)\n(0,a,1)\n", Fault::MissingEdges(1)),
    (b"des (0,1,2)\n(0,a,1)\n(1,a,0)\n", Fault::ExtraText(3)),
    (b"des (0,1,2)\n(0,a,2)\n", Fault::TargetRange(2)),
    (b"des (0,1,2)\n(2,a,2)\n", Fault::SourceRange(2)),
    // bad-transitions
    (b"des (0,1,2)\n(0,a,1\n", Fault::BadEdge(2)),
    (b"des (0,1,2)\n(00,a,1)\n", Fault::BadEdge(2)),
    (b"des (0,1,2)\n(0,a b,1)\n", Fault::BadEdge(2)),
    (b"des (0,1,2)\n(0,\"\",1)\n", Fault::BadEdge(2)),
    (b"des (0,1,2)\n\n", Fault::BadEdge(2)),
    // blank-line-after-end, first-out-of-range, largest-header
    (b"des (0,0,1)\n \n", Fault::ExtraText(2)),
    (b"des (2,0,2)\n", Fault::FirstState),
    (b"des (1,0,0)\n", Fault::NoStates),
    (b"des (0,0,1000001)\n", Fault::TooManyStates),
    (b"des (0,10000001,1)\n", Fault::TooManyTransitions),
    (b"des (0,10000000,1)\n", Fault::MissingEdges(0)),
];

#[test]
fn refused_texts(rt: HostRuntime) -> Result<(), Fail> {
    for (text, fault) in &REFUSED {
        check_fault(rt.alloc(), "a refused text", text, *fault)?;
    }
    Ok(())
}

/// Each entry consists of a range of lengths and an error. If the input `two-equal-targets` is cut to a length in this
/// range, the minimisation of this input must end with this error.
const CUTS: [(usize, usize, Fault); 5] = [
    (0, 12, Fault::BadHeader),
    (13, 14, Fault::MissingEdges(0)),
    (15, 22, Fault::BadEdge(2)),
    (23, 24, Fault::MissingEdges(1)),
    (25, 32, Fault::BadEdge(3)),
];

#[test]
fn cut_texts(rt: HostRuntime) -> Result<(), Fail> {
    check("two-equal-targets", TWO.len() == 34)?;
    for (from, to, fault) in &CUTS {
        for k in *from..=*to {
            check_fault(rt.alloc(), "cut", &TWO[..k.min(34)], *fault)?;
        }
    }
    check_written(rt.alloc(), "cut", &TWO[..33], Relation::Strong, STEP)
}

/// Fails unless the minimisation ends with the error `fault` and writes `out`. Either the source (the object from which
/// the input is read) fails after `place` bytes, or the sink (the object to which the output is written) fails after
/// `count` bytes.
fn check_failing(
    alloc: Global,
    text: &[u8],
    place: Option<usize>,
    count: Option<usize>,
    fault: Fault,
    out: &[u8],
) -> Result<(), Fail> {
    let at = Flow {
        relation: Relation::Strong,
        source: place,
        sink: count,
        piece: 4096,
    };
    check_ends(alloc, "failing", text, at, Some(fault), out)
}

#[test]
fn failing_sources(rt: HostRuntime) -> Result<(), Fail> {
    for place in 0..35 {
        let (text, place) = (TWO, Some(place));
        check_failing(rt.alloc(), text, place, None, Fault::Device, b"")?;
    }
    // judged-before-failure
    let judged = b"des (0,1,2)\n(5,a,1)\n";
    let fault = Fault::SourceRange(2);
    check_failing(rt.alloc(), judged, Some(20), None, fault, b"")
}

#[test]
fn failing_sinks(rt: HostRuntime) -> Result<(), Fail> {
    check("its quotient", STEP.len() == 24)?;
    for count in 0..25 {
        let (text, out) = (TWO, &STEP[..count]);
        check_failing(rt.alloc(), text, None, Some(count), Fault::Device, out)?;
    }
    Ok(())
}
