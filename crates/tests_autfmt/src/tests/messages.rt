//! Tests of the error messages, and of the conversions from other error types.
use autfmt::{Broken, Fault};
use lts::Memory;
use std::alloc::{AllocError, AllocFailed, Global};
use std::test::Fail;
use test_support::check;

/// Errors and their messages.
const MESSAGES: [(Fault, &str); 17] = [
    (Fault::BadHeader, "bad header"),
    (Fault::FirstState, "first state out of range"),
    (Fault::NoStates, "no states"),
    (Fault::TooManyStates, "too many states"),
    (Fault::TooManyTransitions, "too many transitions"),
    (Fault::LineTooLong(1), "line 1: too long"),
    (Fault::BadEdge(2), "line 2: not a transition"),
    (Fault::SourceRange(3), "line 3: source out of range"),
    (Fault::TargetRange(10), "line 10: target out of range"),
    (
        Fault::ExtraText(4294967295),
        "line 4294967295: text after the last transition",
    ),
    (Fault::MissingEdges(0), "only 0 transitions found"),
    (Fault::MissingEdges(1), "only 1 transitions found"),
    (Fault::MissingEdges(12), "only 12 transitions found"),
    (Fault::Device, "read or write failed"),
    (Fault::Memory, "out of memory"),
    (Fault::BadHide(7), "line 7: not a label"),
    (Fault::TooManyHidden, "too many hidden labels"),
];

/// Returns whether the error `fault` has the message `text`.
fn is_shown(alloc: Global, fault: Fault, text: &str) -> Result<bool, Memory> {
    let shown = fault.to_string(alloc)?;
    Ok(shown.as_str() == text)
}

#[test]
fn faults_have_their_messages(rt: HostRuntime) -> Result<(), Fail> {
    for (fault, text) in &MESSAGES {
        check(text, is_shown(rt.alloc(), *fault, text)?)?;
    }
    Ok(())
}

#[test]
fn other_errors_become_faults(_rt: HostRuntime) -> Result<(), Fail> {
    check("broken", Fault::from(Broken) == Fault::Device)?;
    check("refused", Fault::from(AllocError) == Fault::Memory)?;
    check(
        "refused growth",
        Fault::from(AllocFailed { value: 7u8 }) == Fault::Memory,
    )
}
