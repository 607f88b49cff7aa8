//! This module reads a hide list, which contains the labels to hide, one on each line.
ghost use Rattle.std.specs.Prelude.{◌≡◌, ◌↔◌, ℕ, ◌+◌, ◌<◌, ◌≤◌, List, [], ◌∷◌, ◌++◌, length, false, IfSome, Ok, Err};
ghost use Rattle.std.specs.Prelude.{IfOk, IfErr, OnOk, MatchResult, MatchBool};
ghost use Rattle.std.specs.Io.KnownBytes.{Consumes, IsAtEnd};
ghost use Rattle.autfmt.specs.declared.limits.TheConstants.{MOST_LINES};
ghost use Rattle.autfmt.specs.Cutter.{Feeds};
ghost use Rattle.autfmt.specs.HideLists.{FirstHideFault};
ghost use Rattle.autfmt.specs.HideReaders.{IsHideFault, HidesAs};
ghost use Rattle.autfmt.specs.HideReadSoFar.{HideReadSoFar};
ghost use Rattle.autfmt.specs.HideOutcomes.{HideRefuses, HideAnswers};

use crate::cutter::{Cutter, Step};
use crate::fault::Fault;
use crate::hidden::Hidden;
use crate::judge::judge_hide_line;
use crate::limits::MOST_LINES;
use crate::source::Source;
use std::alloc::Global;

/// Reads a hide list, which contains the labels to hide, one on each line. The hide list may have at most 100,000
/// lines. On success, the source (the object from which the hide list is read) is at its end.
///
/// # Errors
///
/// - `LineTooLong`, `BadHide` or `TooManyHidden`: the first error of the hide list. The error is returned as soon as no
///   further bytes could change it. The contract does not state how many bytes after the error are read from the
///   source.
/// - `Device`: the source failed, and the bytes that it had returned before are not enough to show which error is
///   the first error of the hide list.
/// - `Memory`: an allocation failed.
pub fn read_hidden<R: Source>(alloc: Global, r: &mut R) -> Result<Hidden, Fault>
    requires { R.failures r.old ≡ 0 }

    // This clause states what the call guarantees if it succeeds, and when each error is returned. The clause is about
    // the bytes that were read from the source (the object from which the hide list is read).
    ensures outcome { HideAnswers (R.rest r.old) (R.rest r.new) (R.failures r.new) result }

    // A source is the object from which the hide list is read. If the contract of the source states which bytes are
    // still to be read from it, these clauses relate the result to the whole hide list.
    ensures labels { IfSome (R.rest r.old) (λ text. IfOk result (HidesAs text)) }
    ensures fault { IfSome (R.rest r.old)
        (λ text. IfErr result (λ f. IsHideFault f → FirstHideFault text f)) }

    // The error is `Device` if and only if the source (the object from which the hide list is read) has failed.
    ensures device { (result ≡ Err Fault.Device) ↔ (R.failures r.new ≡ 1) }
    ensures failures { R.failures r.new ≤ 1 }
{
    read_labels(alloc, r)
}

/// Reads all lines of a hide list (the labels to hide), and checks that the list has at most 100,000 lines.
fn read_labels<R: Source>(alloc: Global, r: &mut R) -> Result<Hidden, Fault>
    requires { R.failures r.old ≡ 0 }
    ensures { HideAnswers (R.rest r.old) (R.rest r.new) (R.failures r.new) result }
{
    let mut cutter = Cutter::new();
    let mut hidden = Hidden::none(alloc);
    for found in 0..MOST_LINES {
        let some = read_hide_line(&mut cutter, r, found, &mut hidden)?;
        if !some {
            return Ok(hidden);
        }
    }
    let at_end = cutter.is_at_end(r)?;
    if !at_end {
        return Err(Fault::TooManyHidden);
    }
    Ok(hidden)
}

/// Reads the next line of a hide list (the labels to hide), and adds its label to `hidden`. The argument `found` is the
/// number of lines that were read before. If there is no further line, the function returns false.
fn read_hide_line<R: Source>(
    cutter: &mut Cutter,
    r: &mut R,
    found: u32,
    hidden: &mut Hidden,
) -> Result<bool, Fault>
    requires more { found < MOST_LINES }
    requires few { length hidden.old ≤ found }
    requires source { Feeds (R.rest r.old) (R.failures r.old) cutter.old }
    ensures line { (got : List ℕ) × Consumes (R.rest r.old) (R.rest r.new) got ×
        ((given : List ℕ) (H : List (List ℕ)) →
        HideReadSoFar given cutter.old H hidden.old → length H ≡ found →
        MatchResult result
        (λ some. MatchBool some
        ((a : List ℕ) × HideReadSoFar (given ++ got) cutter.new (H ++ a ∷ []) hidden.new)
        (HidesAs (given ++ got) hidden.new))
        (HideRefuses (given ++ got) (R.rest r.new) (R.failures r.new))) }
    ensures few { OnOk result (length hidden.new ≤ found + 1) }
    ensures last { result ≡ Ok false → IsAtEnd (R.rest r.new) }
    ensures source { OnOk result (Feeds (R.rest r.new) (R.failures r.new) cutter.new) }
{
    match cutter.advance(r)? {
        Step::Line => {}
        Step::TooLong => return Err(Fault::LineTooLong(found + 1)),
        Step::End => return Ok(false),
    }
    let label = judge_hide_line(cutter.line(), found + 1)?;
    hidden.add(label)?;
    Ok(true)
}
