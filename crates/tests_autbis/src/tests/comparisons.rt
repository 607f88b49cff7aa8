//! Tests of comparisons of two systems.
use super::running::{is_within, run_hiding};
use autbis::{CmpFault, Side, cmp_program, run_cmp};
use autfmt::{Fault, Hidden, Limits, SliceSource, Source, VecSink, read, read_hidden};
use lts::{Counter, Lts};
use quotient::Relation;
use std::alloc::Global;
use std::test::Fail;
use test_support::{Counted, LONE_STATE_TEXT, MOMENT_OF_CHOICE, Pair, SILENT_MIDDLE, check};

const TRUE: &[u8] = b"TRUE\n";

const FALSE: &[u8] = b"FALSE\n";

const PAIRS: [Pair; 12] = [
    MOMENT_OF_CHOICE,
    SILENT_MIDDLE,
    Pair {
        name: "silent-loop",
        first: b"des (0,1,1)\n(0,i,0)\n",
        second: LONE_STATE_TEXT,
        hide: b"",
        strong: false,
        branching: true,
    },
    Pair {
        name: "first-differs",
        first: b"des (1,1,2)\n(1,a,0)\n",
        second: ONLY_A,
        hide: b"",
        strong: true,
        branching: true,
    },
    Pair {
        name: "different-labels",
        first: ONLY_A,
        second: ONLY_B,
        hide: b"",
        strong: false,
        branching: false,
    },
    Pair {
        name: "different-labels, both hidden",
        first: ONLY_A,
        second: ONLY_B,
        hide: b"a\nb\n",
        strong: true,
        branching: true,
    },
    Pair {
        name: "reordered-lines",
        first: IN_ORDER,
        second: REORDERED,
        hide: b"",
        strong: true,
        branching: true,
    },
    Pair {
        name: "committed-or-not",
        first: b"des (0,3,4)\n(0,a,1)\n(1,i,2)\n(1,b,3)\n",
        second: b"des (0,4,4)\n(0,a,1)\n(0,a,2)\n(1,i,2)\n(1,b,3)\n",
        hide: b"",
        strong: false,
        branching: false,
    },
    Pair {
        name: "lost-option",
        first: b"des (0,3,3)\n(0,a,2)\n(0,i,1)\n(1,b,2)\n",
        second: b"des (0,4,3)\n(0,a,2)\n(0,b,2)\n(0,i,1)\n(1,b,2)\n",
        hide: b"",
        strong: false,
        branching: false,
    },
    Pair {
        name: "hidden-both-sides",
        first: IN_ORDER,
        second: ONLY_B,
        hide: b"a\n",
        strong: false,
        branching: true,
    },
    Pair {
        name: "hidden-both-sides, without the list",
        first: IN_ORDER,
        second: ONLY_B,
        hide: b"",
        strong: false,
        branching: false,
    },
    Pair {
        name: "hidden-second-text",
        first: ONLY_B,
        second: IN_ORDER,
        hide: b"a\n",
        strong: false,
        branching: true,
    },
];

const IN_ORDER: &[u8] = b"des (0,2,3)\n(0,a,1)\n(1,b,2)\n";

const REORDERED: &[u8] = b"des (0,2,3)\n(1,b,2)\n(0,a,1)\n";

const ONLY_A: &[u8] = b"des (0,1,2)\n(0,a,1)\n";

const ONLY_B: &[u8] = b"des (0,1,2)\n(0,b,1)\n";

/// The numbers of bytes after which the first source, the second source and the sink fail. Such a number is `None` if
/// the source or sink never fails. A source is an object from which an input is read, and a sink is an object to which
/// an output is written.
type Places = (Option<usize>, Option<usize>, Option<usize>);

/// The result of a comparison, its output, and the meter, which has counted its rounds and visits (reads of
/// transitions).
type Ran = (Result<bool, CmpFault>, VecSink, Counter);

/// Compares the two systems after hiding the labels in `hidden`. The two sources (objects from which the inputs are
/// read) and the sink (the object to which the output is written) fail after the numbers of bytes in `places`.
fn compare(
    alloc: Global,
    texts: (&[u8], &[u8]),
    hidden: &Hidden,
    places: Places,
    rel: Relation,
) -> Ran {
    let mut one = SliceSource::new(texts.0, places.0);
    let mut other = SliceSource::new(texts.1, places.1);
    let mut sink = VecSink::new(alloc, places.2);
    let mut meter = Counter::new();
    let lim = Limits::file();
    let answer = run_cmp(
        alloc, &mut one, &mut other, &mut sink, rel, &lim, hidden, &mut meter,
    );
    (answer, sink, meter)
}

/// Compares the systems in `texts`. Returns true if the result is `wanted`, and the output is `out`.
fn compares(
    alloc: Global,
    texts: (&[u8], &[u8]),
    list: &[u8],
    places: Places,
    rel: Relation,
    wanted: Result<bool, CmpFault>,
    out: &[u8],
) -> bool {
    let Ok(hidden) = read_hidden(alloc, &mut SliceSource::new(list, None)) else {
        return false;
    };
    let (answer, sink, _) = compare(alloc, texts, &hidden, places, rel);
    answer == wanted && sink.bytes() == out
}

/// Compares the two systems in `pair` for the relation `rel`. If `same` is true, the result must be that the two
/// systems are equivalent. If `same` is false, the result must be that they are not equivalent. The function fails if
/// the comparison has another result.
fn check_verdict(alloc: Global, pair: &Pair, rel: Relation, same: bool) -> Result<(), Fail> {
    let (texts, none) = ((pair.first, pair.second), (None, None, None));
    let out = if same { TRUE } else { FALSE };
    check(
        pair.name,
        compares(alloc, texts, pair.hide, none, rel, Ok(same), out),
    )
}

#[test]
fn verdicts(rt: HostRuntime) -> Result<(), Fail> {
    for pair in &PAIRS {
        check_verdict(rt.alloc(), pair, Relation::Strong, pair.strong)?;
        check_verdict(rt.alloc(), pair, Relation::Branching, pair.branching)?;
    }
    Ok(())
}

/// Hides the labels of the hide list in a system, and minimises the result. Returns the sink (the object to which the
/// output is written), which then contains the quotient.
fn quotient(alloc: Global, text: &[u8], list: &[u8], rel: Relation) -> Result<VecSink, Fault> {
    let hidden = read_hidden(alloc, &mut SliceSource::new(list, None))?;
    let (answer, sink, _) = run_hiding(alloc, text, &hidden, rel);
    match answer {
        Ok(_) => Ok(sink),
        Err(fault) => Err(fault),
    }
}

/// Returns the number of states of a system.
fn states(alloc: Global, text: &[u8]) -> Result<u32, Fault> {
    let system: Lts<Counter> = read(alloc, &mut SliceSource::new(text, None), &Limits::file())?;
    Ok(system.states())
}

/// Hides the labels of the hide list (the labels to hide) in a system, and returns the number of states in the quotient
/// of the result.
fn least_states(alloc: Global, text: &[u8], list: &[u8], rel: Relation) -> Result<u32, Fault> {
    let written = quotient(alloc, text, list, rel)?;
    states(alloc, written.bytes())
}

/// Fails if the two systems are equivalent but their quotients have different numbers of states.
fn check_states(alloc: Global, pair: &Pair, rel: Relation, same: bool) -> Result<(), Fail> {
    if !same {
        return Ok(());
    }
    let first = least_states(alloc, pair.first, pair.hide, rel)?;
    let second = least_states(alloc, pair.second, pair.hide, rel)?;
    check(pair.name, first == second)
}

/// If two systems are equivalent, their quotients have the same number of states.
#[test]
fn no_smaller_system(rt: HostRuntime) -> Result<(), Fail> {
    for pair in &PAIRS {
        check_states(rt.alloc(), pair, Relation::Strong, pair.strong)?;
        check_states(rt.alloc(), pair, Relation::Branching, pair.branching)?;
    }
    Ok(())
}

/// An example of a comparison that fails: its name, both inputs, the numbers of bytes after which the sources and the
/// sink fail, the part of the comparison in which the error occurs, the error, and the output. A source is an object
/// from which an input is read, and the sink is the object to which the output is written.
type Failing = (
    &'static str,
    &'static [u8],
    &'static [u8],
    Places,
    Side,
    Fault,
    &'static [u8],
);

const FAILING: [Failing; 7] = [
    (
        "first-side-faulty",
        b"",
        IN_ORDER,
        (None, None, None),
        Side::First,
        Fault::BadHeader,
        b"",
    ),
    (
        "both sides faulty",
        b"",
        b"des (0,0,0)\n",
        (None, None, None),
        Side::First,
        Fault::BadHeader,
        b"",
    ),
    (
        "second side faulty",
        IN_ORDER,
        b"",
        (None, None, None),
        Side::Second,
        Fault::BadHeader,
        b"",
    ),
    (
        "first source fails",
        IN_ORDER,
        REORDERED,
        (Some(3), None, None),
        Side::First,
        Fault::Device,
        b"",
    ),
    (
        "second source fails",
        IN_ORDER,
        REORDERED,
        (None, Some(3), None),
        Side::Second,
        Fault::Device,
        b"",
    ),
    (
        "reordered-lines, sink fails after 2 bytes",
        IN_ORDER,
        REORDERED,
        (None, None, Some(2)),
        Side::Run,
        Fault::Device,
        b"TR",
    ),
    (
        "reordered-lines, finish fails after 5 bytes",
        IN_ORDER,
        REORDERED,
        (None, None, Some(5)),
        Side::Run,
        Fault::Device,
        TRUE,
    ),
];

#[test]
fn sides(rt: HostRuntime) -> Result<(), Fail> {
    for (name, one, other, places, side, fault, out) in &FAILING {
        for rel in [Relation::Strong, Relation::Branching] {
            let texts = (*one, *other);
            let wanted = Err(CmpFault {
                side: *side,
                fault: *fault,
            });
            check(
                name,
                compares(rt.alloc(), texts, b"", *places, rel, wanted, out),
            )?;
        }
    }
    Ok(())
}

/// Comparing the two systems of the example `moment-of-choice` takes exactly 3 rounds.
#[test]
fn rounds_and_visits(rt: HostRuntime) -> Result<(), Fail> {
    let (hidden, none) = (Hidden::none(rt.alloc()), (None, None, None));
    let texts = (MOMENT_OF_CHOICE.first, MOMENT_OF_CHOICE.second);
    let (answer, _, meter) = compare(rt.alloc(), texts, &hidden, none, Relation::Strong);
    check(
        "moment-of-choice",
        answer == Ok(false) && is_within(&meter, 3, 7, 35),
    )
}

/// Runs a comparison whose first input has an error. Returns true if the comparison fails without reading anything from
/// the second source. A source is an object from which an input is read.
fn leaves_second(alloc: Global) -> bool {
    let mut other = SliceSource::new(IN_ORDER, None);
    let answer = run_cmp(
        alloc,
        &mut SliceSource::new(b"", None),
        &mut other,
        &mut VecSink::new(alloc, None),
        Relation::Strong,
        &Limits::file(),
        &Hidden::none(alloc),
        &mut Counter::new(),
    );
    answer.is_err() && starts_with(&mut other, IN_ORDER)
}

/// Reads eight bytes from the source (the object from which the input is read). Returns true if the source had not
/// failed before this read and the text begins with these eight bytes.
fn starts_with(source: &mut SliceSource, text: &[u8]) -> bool {
    let mut piece = [0u8; 8];
    source.failures() == 0 && source.take(&mut piece).unwrap_or(0) == 8 && text.starts_with(&piece)
}

#[test]
fn first_side_faulty(rt: HostRuntime) -> Result<(), Fail> {
    check("first-side-faulty", leaves_second(rt.alloc()))
}

/// Returns true if the result of the comparison is `same`, and the comparison calls `finish` of its sink (the object to
/// which the output is written) exactly once.
fn finishes_once(alloc: Global, pair: &Pair, same: bool) -> bool {
    let mut sink = Counted { finished: 0 };
    let answer = run_cmp(
        alloc,
        &mut SliceSource::new(pair.first, None),
        &mut SliceSource::new(pair.second, None),
        &mut sink,
        Relation::Branching,
        &Limits::file(),
        &Hidden::none(alloc),
        &mut Counter::new(),
    );
    answer == Ok(same) && sink.finished == 1
}

#[test]
fn finished(rt: HostRuntime) -> Result<(), Fail> {
    for pair in &[MOMENT_OF_CHOICE, SILENT_MIDDLE] {
        check(pair.name, finishes_once(rt.alloc(), pair, pair.branching))?;
    }
    Ok(())
}

/// An example for the program `cmp_program`: its name, both inputs, the relation, the hide list (the labels to hide),
/// the exit status, the output, and the message.
type Compared = (
    &'static str,
    &'static [u8],
    &'static [u8],
    Relation,
    &'static [u8],
    u8,
    &'static [u8],
    &'static [u8],
);

const COMPARED: [Compared; 6] = [
    (
        "reordered-lines",
        IN_ORDER,
        REORDERED,
        Relation::Strong,
        b"",
        0,
        TRUE,
        b"",
    ),
    (
        "hidden-both-sides",
        IN_ORDER,
        ONLY_B,
        Relation::Strong,
        b"a\n",
        1,
        FALSE,
        b"",
    ),
    (
        "hidden-second-text",
        ONLY_B,
        IN_ORDER,
        Relation::Branching,
        b"a\n",
        0,
        TRUE,
        b"",
    ),
    (
        "hidden-both-sides, without the list",
        IN_ORDER,
        ONLY_B,
        Relation::Branching,
        b"",
        1,
        FALSE,
        b"",
    ),
    (
        "second-file-empty",
        LONE_STATE_TEXT,
        b"",
        Relation::Strong,
        b"",
        2,
        b"",
        b"autbis: b.aut: bad header\n",
    ),
    (
        "first-side-faulty",
        b"",
        LONE_STATE_TEXT,
        Relation::Strong,
        b"",
        2,
        b"",
        b"autbis: a.aut: bad header\n",
    ),
];

/// Runs the program that compares two inputs. Returns its exit status, its output, and its message.
fn compared(
    alloc: Global,
    one: &[u8],
    other: &[u8],
    relation: Relation,
    hidden: &Hidden,
) -> (u8, VecSink, Vec<u8>) {
    let mut sink = VecSink::new(alloc, None);
    let mut said = Vec::new(alloc);
    let status = cmp_program(
        alloc,
        &mut SliceSource::new(one, None),
        "a.aut",
        &mut SliceSource::new(other, None),
        "b.aut",
        &mut sink,
        &mut said,
        relation,
        &Limits::file(),
        hidden,
    );
    (status, sink, said)
}

/// Runs the program that compares two inputs. Returns true if the program ends with the exit status, the output and the
/// message in `row`.
fn is_compared(alloc: Global, row: &Compared) -> bool {
    let (_, one, other, relation, list, status, out, message) = *row;
    let Ok(hidden) = read_hidden(alloc, &mut SliceSource::new(list, None)) else {
        return false;
    };
    let (ended, sink, said) = compared(alloc, one, other, relation, &hidden);
    ended == status && sink.bytes() == out && said.as_slice() == message
}

#[test]
fn statuses(rt: HostRuntime) -> Result<(), Fail> {
    for row in &COMPARED {
        check(row.0, is_compared(rt.alloc(), row))?;
    }
    Ok(())
}
