//! This module reads a system from an input. The input must consist of a header, followed by exactly as many
//! transitions as the header declares.
ghost use Rattle.std.specs.Prelude.{◌≡◌, ◌↔◌, ℕ, ◌+◌, ◌<◌, ◌≤◌, List, [], ◌∷◌, ◌++◌, length, false, IsTrue, IfSome};
ghost use Rattle.std.specs.Prelude.{Err, IfOk, IfErr, OnOk, MatchResult};
ghost use Rattle.std.specs.Io.KnownBytes.{Consumes, IsAtEnd};
ghost use Rattle.theory.specs.System.{Transition};
ghost use Rattle.lts.specs.Lts.{InRange};
ghost use Rattle.autfmt.specs.declared.limits.TheConstants.{FILE_STATES, FILE_TRANSITIONS};
ghost use Rattle.autfmt.specs.Bounds.{Bounds};
ghost use Rattle.autfmt.specs.Cutter.{Feeds};
ghost use Rattle.autfmt.specs.Faults.{FirstFault};
ghost use Rattle.autfmt.specs.Held.{CanAdd};
ghost use Rattle.autfmt.specs.Readers.{IsTextFault, ReadsAs};
ghost use Rattle.autfmt.specs.ReadSoFar.{ReadSoFar, HeldSoFar, ReadsOneMore, HoldsText};
ghost use Rattle.autfmt.specs.Outcomes.{Takes, Refuses, AnswersRead};

use crate::cutter::{Cutter, Step};
use crate::fault::Fault;
use crate::held::Held;
use crate::hidden::Hidden;
use crate::judge::{Promise, judge_header, judge_transition};
use crate::limits::Limits;
use crate::source::Source;
use crate::usual::transition_in_front;
use lts::{Lts, Memory, Meter};
use std::alloc::Global;

/// Reads an input to its end, and returns the system that the input describes. The input must consist of a header with
/// three numbers, followed by exactly as many transitions as the header declares. The numbers in the header must not
/// exceed the limits `lim`. If the call succeeds, the source (the object from which the input is read) is at its end,
/// and the label table of the system contains exactly the labels of the transitions.
///
/// # Errors
///
/// - One of the errors from `BadHeader` to `MissingEdges`: this is the first error of the input. The error is returned
///   as soon as no further bytes could change it. The contract does not state how many bytes after the error are read
///   from the source.
/// - `Device`: the source failed, and the bytes that it had returned before are not enough to show which error is
///   the first error of the input.
/// - `Memory`: an allocation failed. This error can be returned only if line 1 is a correct header.
pub fn read<M: Meter, R: Source>(alloc: Global, r: &mut R, lim: &Limits) -> Result<Lts<M>, Fault>
    requires { R.failures r.old ≡ 0 }

    // This clause states what the call guarantees if it succeeds, and when each error is returned. The clause is about
    // the bytes that were read from the source (the object from which the input is read).
    ensures outcome { AnswersRead lim.now [] (R.rest r.old) (R.rest r.new)
        (R.failures r.new) result }

    // A source is the object from which the input is read. If the contract of the source states which bytes are still
    // to be read from it, these clauses relate the result to the whole input.
    ensures system { IfSome (R.rest r.old) (λ text. IfOk result (ReadsAs lim.now text [])) }
    ensures fault { IfSome (R.rest r.old)
        (λ text. IfErr result (λ f. IsTextFault f → FirstFault lim.now text f)) }

    // The error is `Device` if and only if the source (the object from which the input is read) has failed.
    ensures device { (result ≡ Err Fault.Device) ↔ (R.failures r.new ≡ 1) }
    ensures failures { R.failures r.new ≤ 1 }
{
    read_system(alloc, r, lim, &Hidden::none(alloc))
}

/// Reads an input to its end as `read` does, but replaces each label in the list `h` by the internal label `i`.
///
/// # Errors
///
/// The possible errors are the errors of `read`.
pub fn read_hiding<M: Meter, R: Source>(
    alloc: Global,
    r: &mut R,
    lim: &Limits,
    h: &Hidden,
) -> Result<Lts<M>, Fault>
    requires { R.failures r.old ≡ 0 }

    // This clause states what the call guarantees if it succeeds, and when each error is returned. The clause is about
    // the bytes that were read from the source (the object from which the input is read).
    ensures outcome { AnswersRead lim.now h.now (R.rest r.old) (R.rest r.new)
        (R.failures r.new) result }

    // A source is the object from which the input is read. If the contract of the source states which bytes are still
    // to be read from it, these clauses relate the result to the whole input.
    ensures system { IfSome (R.rest r.old) (λ text. IfOk result (ReadsAs lim.now text h.now)) }
    ensures fault { IfSome (R.rest r.old)
        (λ text. IfErr result (λ f. IsTextFault f → FirstFault lim.now text f)) }

    // The error is `Device` if and only if the source (the object from which the input is read) has failed.
    ensures device { (result ≡ Err Fault.Device) ↔ (R.failures r.new ≡ 1) }
    ensures failures { R.failures r.new ≤ 1 }
{
    read_system(alloc, r, lim, h)
}

/// Reads an input to its end, and builds a system from its transitions.
fn read_system<M: Meter, R: Source>(
    alloc: Global,
    r: &mut R,
    lim: &Limits,
    h: &Hidden,
) -> Result<Lts<M>, Fault>
    requires { R.failures r.old ≡ 0 }
    ensures { AnswersRead lim.now h.now (R.rest r.old) (R.rest r.new) (R.failures r.new) result }
{
    let (promise, held) = read_text(alloc, r, lim, h)?;
    let Held {
        labels,
        transitions,
        ..
    } = held;
    let system = Lts::from_transitions(labels, promise.first, promise.states, transitions)?;
    Ok(system)
}

/// Reads an input to its end. Returns the numbers that the header declares, and the transitions that were read.
fn read_text<R: Source>(
    alloc: Global,
    r: &mut R,
    lim: &Limits,
    h: &Hidden,
) -> Result<(Promise, Held), Fault>
    requires { R.failures r.old ≡ 0 }
    ensures whole { Takes (R.rest r.old) (R.rest r.new)
        (λ given x. HoldsText lim.now h.now given x.0 x.1)
        (λ given. Refuses lim.now given (R.rest r.new) (R.failures r.new)) result }
    ensures range { IfOk result
        (λ x. InRange (length x.1.labels) x.0.first x.0.states x.1.transitions) }
    ensures end { OnOk result (IsAtEnd (R.rest r.new)) }
    ensures sound { OnOk result (R.failures r.new ≡ 0) }
{
    let mut cutter = Cutter::new();
    let promise = read_header(&mut cutter, r, lim)?;
    let held = read_transitions(alloc, &mut cutter, r, promise, h)?;
    let at_end = cutter.is_at_end(r)?;
    if !at_end {
        return Err(Fault::ExtraText(promise.transitions + 2));
    }
    Ok((promise, held))
}

/// Reads the header, which is line 1 of the input.
fn read_header<R: Source>(cutter: &mut Cutter, r: &mut R, lim: &Limits) -> Result<Promise, Fault>
    requires fresh { cutter.old ≡ record { line = []; ahead = []; over = false } }
    requires sound { R.failures r.old ≡ 0 }
    ensures header { Takes (R.rest r.old) (R.rest r.new)
        (λ given p. ReadSoFar lim.now given cutter.new p [])
        (λ given. Refuses lim.now given (R.rest r.new) (R.failures r.new)) result }
    ensures file { IfOk result
        (λ p. (p.states ≤ FILE_STATES) × (p.transitions ≤ FILE_TRANSITIONS)) }
    ensures source { OnOk result (Feeds (R.rest r.new) (R.failures r.new) cutter.new) }
{
    match cutter.advance(r)? {
        Step::Line => {}
        Step::TooLong => return Err(Fault::LineTooLong(1)),
        Step::End => return Err(Fault::BadHeader),
    }
    judge_header(cutter.line(), lim)
}

/// Reads and stores all transitions of an input. The header of the input declares the number of transitions.
fn read_transitions<R: Source>(
    alloc: Global,
    cutter: &mut Cutter,
    r: &mut R,
    promise: Promise,
    h: &Hidden,
) -> Result<Held, Fault>
    requires file { promise.transitions ≤ FILE_TRANSITIONS }
    requires source { Feeds (R.rest r.old) (R.failures r.old) cutter.old }
    ensures transitions { (got : List ℕ) × Consumes (R.rest r.old) (R.rest r.new) got ×
        ((bounds : Bounds) (given : List ℕ) → ReadSoFar bounds given cutter.old promise [] →
        MatchResult result
        (λ held. (es : List Transition)
        × HeldSoFar bounds h.now (given ++ got) promise (cutter.new, held) es)
        (Refuses bounds (given ++ got) (R.rest r.new) (R.failures r.new))) }
    ensures source { OnOk result (Feeds (R.rest r.new) (R.failures r.new) cutter.new) }
    ensures len { IfOk result (λ held. length held.transitions ≡ promise.transitions) }
{
    let mut held = Held::new(alloc);
    for _found in 0..promise.transitions {
        if read_usual(cutter, promise, h, &mut held)? {
            continue;
        }
        read_transition(cutter, r, promise, h, &mut held)?;
    }
    Ok(held)
}

/// Tries to read the next line in a fast way. This can succeed only if the line is a correct transition in one of its
/// most common written forms. In addition, the bytes of the whole line must be among the bytes that were last read from
/// the source (the object from which the input is read). On success, the function stores the transition and returns
/// true. If the line cannot be read in this way, the function changes nothing and returns false. With this function,
/// reading is twice as fast as without it.
#[inline(always)]
fn read_usual(
    cutter: &mut Cutter,
    promise: Promise,
    h: &Hidden,
    held: &mut Held,
) -> Result<bool, Memory>
    requires { CanAdd held.old promise.transitions }
    ensures taken { IfOk result (λ taken. IsTrue taken →
        ReadsOneMore h.now promise [] (cutter.old, held.old) (cutter.new, held.new)) }
    ensures none { IfOk result
        (λ taken. ¬ IsTrue taken → (cutter.new ≡ cutter.old) × (held.new ≡ held.old)) }
    ensures open { IfOk result (λ taken. IsTrue taken → cutter.new.over ≡ false) }
    ensures len { IfOk result (λ taken. IsTrue taken →
        length held.new.transitions ≡ length held.old.transitions + 1) }
    ensures few { OnOk result (length held.new.labels ≤ length held.new.transitions) }
{
    let Some((source, label, target, rest)) = transition_in_front(cutter.ahead()) else {
        return Ok(false);
    };
    if source >= u64::from(promise.states) || target >= u64::from(promise.states) {
        return Ok(false);
    }
    let left = rest.len();
    let read = (source as u32, label, target as u32);
    let is_added = held.add_if_label(read, promise.transitions, h)?;
    if !is_added {
        return Ok(false);
    }
    cutter.pass(left);
    Ok(true)
}

/// Reads the transition on the next line, and stores it. The transition may have any written form that the format
/// allows: the label may be written with or without quotation marks, and there may be blanks between the parts of the
/// line.
#[inline(never)]
fn read_transition<R: Source>(
    cutter: &mut Cutter,
    r: &mut R,
    promise: Promise,
    h: &Hidden,
    held: &mut Held,
) -> Result<(), Fault>
    requires room { CanAdd held.old promise.transitions }
    requires source { Feeds (R.rest r.old) (R.failures r.old) cutter.old }
    ensures transition { (got : List ℕ) × Consumes (R.rest r.old) (R.rest r.new) got ×
        ((bounds : Bounds) (given : List ℕ) (es : List Transition) →
        HeldSoFar bounds h.now given promise (cutter.old, held.old) es →
        MatchResult result
        (λ _. (e : Transition)
        × HeldSoFar bounds h.now (given ++ got) promise (cutter.new, held.new) (es ++ e ∷ []))
        (Refuses bounds (given ++ got) (R.rest r.new) (R.failures r.new))) }
    ensures source { OnOk result (Feeds (R.rest r.new) (R.failures r.new) cutter.new) }
    ensures len { OnOk result (length held.new.transitions ≡ length held.old.transitions + 1) }
    ensures few { OnOk result (length held.new.labels ≤ length held.new.transitions) }
{
    let found = held.transitions.len() as u32;
    match cutter.advance(r)? {
        Step::Line => {}
        Step::TooLong => return Err(Fault::LineTooLong(found + 2)),
        Step::End => return Err(Fault::MissingEdges(found)),
    }
    let read = judge_transition(cutter.line(), found + 2, promise)?;
    held.add(read, promise.transitions, h)?;
    Ok(())
}
