//! This module checks one line of an input, and returns either the contents of this line or its error.
ghost use Rattle.std.specs.Prelude.{◌<◌, ◌≤◌, IfOk, IfErr};
ghost use Rattle.theory.specs.System.{IsLabel};
ghost use Rattle.autfmt.specs.declared.limits.TheConstants.{FILE_STATES, FILE_TRANSITIONS};
ghost use Rattle.autfmt.specs.Grammar.{TransitionLine};
ghost use Rattle.autfmt.specs.Texts.{IsShort, GoodHeader};
ghost use Rattle.autfmt.specs.Faults.{HeaderFault, EdgeFault};
ghost use Rattle.autfmt.specs.HideLists.{Hides, HideFault};
ghost use Rattle.autfmt.specs.Readers.{IsTextFault};
ghost use Rattle.autfmt.specs.HideReaders.{IsHideFault};

use crate::fault::Fault;
use crate::limits::Limits;
use crate::token::{header_of, hide_line_of, transition_of};

/// The numbers that a correct header declares: the first state, the number of transitions and the number of states.
#[derive(Clone, Copy)]
pub(crate) struct Promise {
    pub(crate) first: u32,
    pub(crate) transitions: u32,
    pub(crate) states: u32,
}

/// Checks that line 1 of an input is a correct header within the limits `lim`. Returns the numbers that the header
/// declares.
pub(crate) fn judge_header(line: &[u8], lim: &Limits) -> Result<Promise, Fault>
    requires { IsShort line.now }
    ensures good { IfOk result (λ p. GoodHeader lim.now line.now p.first p.transitions p.states) }
    ensures file { IfOk result
        (λ p. (p.states ≤ FILE_STATES) × (p.transitions ≤ FILE_TRANSITIONS)) }
    ensures fault { IfErr result (λ f. HeaderFault lim.now line.now f) }
    ensures kind { IfErr result IsTextFault }
{
    let Some((first, transitions, states)) = header_of(line) else {
        return Err(Fault::BadHeader);
    };
    if states == 0 {
        return Err(Fault::NoStates);
    }
    if first >= states {
        return Err(Fault::FirstState);
    }
    if states > u64::from(lim.states()) {
        return Err(Fault::TooManyStates);
    }
    if transitions > u64::from(lim.transitions()) {
        return Err(Fault::TooManyTransitions);
    }
    Ok(Promise {
        first: first as u32,
        transitions: transitions as u32,
        states: states as u32,
    })
}

/// Checks that line `k` of an input is a transition between states of the system, whose header declares the numbers
/// `promise`. Returns the source, the label and the target of the transition.
pub(crate) fn judge_transition(
    line: &[u8],
    k: u32,
    promise: Promise,
) -> Result<(u32, &[u8], u32), Fault>
    requires { IsShort line.now }
    ensures good { IfOk result (λ x. TransitionLine line.now x.0 x.1.now x.2) }
    ensures among { IfOk result (λ x. (x.0 < promise.states) × (x.2 < promise.states)) }
    ensures label { IfOk result (λ x. IsLabel x.1.now) }
    ensures fault { IfErr result (λ f. EdgeFault promise.states k line.now f) }
    ensures kind { IfErr result IsTextFault }
{
    let Some((source, label, target)) = transition_of(line) else {
        return Err(Fault::BadEdge(k));
    };
    if source >= u64::from(promise.states) {
        return Err(Fault::SourceRange(k));
    }
    if target >= u64::from(promise.states) {
        return Err(Fault::TargetRange(k));
    }
    Ok((source as u32, label, target as u32))
}

/// Checks that line `k` of a hide list (the labels to hide) is a label. Returns this label.
pub(crate) fn judge_hide_line(line: &[u8], k: u32) -> Result<&[u8], Fault>
    requires { IsShort line.now }
    ensures good { IfOk result (λ a. Hides line.now a.now) }
    ensures label { IfOk result (λ a. IsLabel a.now) }
    ensures fault { IfErr result (λ f. HideFault k line.now f) }
    ensures kind { IfErr result IsHideFault }
{
    match hide_line_of(line) {
        Some(label) => Ok(label),
        None => Err(Fault::BadHide(k)),
    }
}
