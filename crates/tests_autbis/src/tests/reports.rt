//! Tests of the messages and exit statuses of errors and of minimisations.
use super::commands::Closed;
use autbis::{WordFault, cannot_open, min_program, report, report_words};
use autfmt::{Fault, Hidden, Limits, SliceSource, VecSink, read_hidden};
use quotient::Relation;
use std::alloc::{AllocError, Global};
use std::test::Fail;
use test_support::{Example, HIDDEN_QUOTED, SILENT_DETOUR, TWO_EQUAL_TARGETS_TEXT, check};

/// All errors that an input or a hide list can have. Each entry consists of the error, and of the message that is
/// written after the name of the file.
const MESSAGES: [(Fault, &str); 14] = [
    (Fault::BadHeader, "bad header"),
    (Fault::FirstState, "first state out of range"),
    (Fault::NoStates, "no states"),
    (Fault::TooManyStates, "too many states"),
    (Fault::TooManyTransitions, "too many transitions"),
    (Fault::LineTooLong(7), "line 7: too long"),
    (Fault::BadEdge(2), "line 2: not a transition"),
    (Fault::SourceRange(3), "line 3: source out of range"),
    (Fault::TargetRange(4), "line 4: target out of range"),
    (
        Fault::ExtraText(10_000_002),
        "line 10000002: text after the last transition",
    ),
    (Fault::MissingEdges(0), "only 0 transitions found"),
    (Fault::MissingEdges(1), "only 1 transitions found"),
    (Fault::BadHide(5), "line 5: not a label"),
    (Fault::TooManyHidden, "too many hidden labels"),
];

/// Returns true if `report` writes the message `text` for the error and returns the exit status `status`. In addition,
/// `report` must return the same exit status if the message cannot be written.
fn is_reported(alloc: Global, fault: Fault, status: u8, text: &[u8]) -> bool {
    let mut said = Vec::new(alloc);
    let answered = report(&fault, "a.aut", &mut said);
    answered == status && said.as_slice() == text && report(&fault, "a.aut", &mut Closed) == status
}

#[test]
fn messages(rt: HostRuntime) -> Result<(), Fail> {
    for (fault, said) in MESSAGES {
        let line = format!(in rt.alloc(); "autbis: a.aut: {said}\n")?;
        check(said, is_reported(rt.alloc(), fault, 2, line.as_bytes()))?;
    }
    Ok(())
}

#[test]
fn messages_without_a_name(rt: HostRuntime) -> Result<(), Fail> {
    let failed = b"autbis: read or write failed\n";
    let refused = b"autbis: out of memory\n";
    check("device", is_reported(rt.alloc(), Fault::Device, 5, failed))?;
    check("memory", is_reported(rt.alloc(), Fault::Memory, 4, refused))
}

#[test]
fn other_messages(rt: HostRuntime) -> Result<(), Fail> {
    let mut shown = Vec::new(rt.alloc());
    let mut said = Vec::new(rt.alloc());
    let memory = report_words(&WordFault::Memory, &mut shown, &mut said);
    let unopened = cannot_open("b.aut", &mut said);
    let messages = "autbis: out of memory\nautbis: b.aut: cannot open\n";
    check("statuses", memory == 4 && unopened == 5 && shown.is_empty())?;
    check("messages", said.as_slice() == messages.as_bytes())
}

/// Runs `min_program` modulo strong bisimilarity and with `--stats`. Returns the exit status, the output, and the
/// message. The source (the object from which the input is read) fails after `place` bytes.
fn ran(
    alloc: Global,
    text: &[u8],
    place: Option<usize>,
    name: &str,
    hidden: &Hidden,
) -> (u8, VecSink, Vec<u8>) {
    let mut source = SliceSource::new(text, place);
    let mut sink = VecSink::new(alloc, None);
    let mut said = Vec::new(alloc);
    let status = min_program(
        alloc,
        &mut source,
        name,
        &mut sink,
        &mut said,
        Relation::Strong,
        true,
        &Limits::file(),
        hidden,
    );
    (status, sink, said)
}

/// An example: an input, the number of bytes after which its source (the object from which the input is read) fails,
/// the exit status, and the message.
type Faulty = (&'static [u8], Option<usize>, u8, &'static [u8]);

const FAULTY: [Faulty; 3] = [
    (b"", None, 2, b"autbis: standard input: bad header\n"),
    (
        b"des (0, 2, 2)\n(0, a, 1)\n",
        None,
        2,
        b"autbis: standard input: only 1 transitions found\n",
    ),
    (
        TWO_EQUAL_TARGETS_TEXT,
        Some(20),
        5,
        b"autbis: read or write failed\n",
    ),
];

/// Runs the program with the input in `faulty`. Returns true if the program ends with the exit status and the message
/// in `faulty`, and writes no output.
fn is_refused(alloc: Global, faulty: &Faulty) -> bool {
    let (text, place, status, message) = *faulty;
    let hidden = Hidden::none(alloc);
    let (ended, sink, said) = ran(alloc, text, place, "standard input", &hidden);
    ended == status && sink.bytes().is_empty() && said.as_slice() == message
}

#[test]
fn faulty_texts(rt: HostRuntime) -> Result<(), Fail> {
    for faulty in &FAULTY {
        check("a faulty text", is_refused(rt.alloc(), faulty))?;
    }
    Ok(())
}

/// Two systems whose refinement takes two rounds. The name of the first example is `silent-detour-stats`.
const COUNTED: [Example; 2] = [SILENT_DETOUR, HIDDEN_QUOTED];

/// Returns the line that `--stats` must write for the example, if refinement takes two rounds and the run makes
/// `visits` visits (reads of transitions).
fn stats(alloc: Global, example: &Example, visits: u32) -> Result<String, AllocError> {
    let (n, m) = (example.states, example.transitions);
    let most = u64::from(m) * 4;
    let counts = format!(in alloc; "states {n} transitions {m} rounds 2")?;
    format!(in alloc; "stats: {counts} visits {visits} allowance {most}\n")
}

/// Returns true if the message `said` is the line that `--stats` asks for in a minimisation of the example with two
/// rounds. Let m be the number of transitions of the system. The number of visits (reads of transitions) in the line
/// must be at least 2 * m and at most 4 * m.
fn shows_counts(alloc: Global, example: &Example, said: &[u8]) -> Result<bool, AllocError> {
    let transitions = example.transitions.min(6);
    for visits in 2 * transitions..=4 * transitions {
        if stats(alloc, example, visits)?.as_bytes() == said {
            return Ok(true);
        }
    }
    Ok(false)
}

/// Fails if the program does not write the quotient of the example, or does not write the line that `--stats` asks for.
fn check_counts(alloc: Global, example: &Example) -> Result<(), Fail> {
    let hidden = read_hidden(alloc, &mut SliceSource::new(example.hide, None))?;
    let (status, sink, said) = ran(alloc, example.text, None, "a.aut", &hidden);
    check(example.name, status == 0 && sink.bytes() == example.strong)?;
    check(example.name, shows_counts(alloc, example, &said)?)
}

#[test]
fn counts(rt: HostRuntime) -> Result<(), Fail> {
    for example in &COUNTED {
        check_counts(rt.alloc(), example)?;
    }
    Ok(())
}
