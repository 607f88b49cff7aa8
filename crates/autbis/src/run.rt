//! Minimises one system: the function `run_min` reads the input and writes the output.
ghost use Rattle.std.specs.Prelude.{◌≡◌, IfErr};
ghost use Rattle.lts.specs.Meter.{IsFresh};
ghost use Rattle.autfmt.specs.Outcomes.{Takes};
ghost use Rattle.autbis.specs.Runs.{MinimisationFails, MinimisesTo, asks, used};

use autfmt::{Fault, Hidden, Limits, Sink, Source, read_hiding, write};
use lts::{Counter, Lts, Meter};
use quotient::{Relation, minimise};
use std::alloc::Global;

/// The size of a system that was read: the numbers of states and transitions in its header.
#[derive(Clone, Copy, Debug, PartialEq, Eq)]
pub struct Counts {
    /// The number of states, which is at least 1 and at most 1,000,000.
    pub states: u32,
    /// The number of transitions, which is at most 10,000,000. If a transition is repeated, each repetition is counted.
    pub transitions: u32,
}

/// Reads a system from the source `r` (the object from which the input is read), and replaces each label in the list
/// `h` by the internal action `i`. Then it minimises the system modulo `rel`, and writes the quotient to the sink `w`
/// (the object to which the output is written). The result of `run_min` is the size of the system that was read. The
/// limits `lim` are the largest numbers of states and transitions that the header may declare. The meter `m` counts
/// rounds and visits (reads of transitions), and must not have counted anything before. The number of rounds is at most
/// the number of states of the system. The number of visits is at most (rounds + 2) times the number of transitions.
///
/// # Errors
///
/// - One of the errors from `BadHeader` to `MissingEdges`: the input is incorrect, and this is its first error. Neither
///   the source nor the sink has failed, nothing was written, and the meter has counted no rounds and no visits.
/// - `Device`: the source or the sink failed. If the source failed, nothing was written, and the meter has counted no
///   rounds and no visits. If the sink failed, a prefix of the output was written.
/// - `Memory`: an allocation failed, which can happen only if line 1 is correct. Neither the source nor the sink has
///   failed, and nothing was written.
pub fn run_min<M: Meter, R: Source, W: Sink>(
    alloc: Global,
    r: &mut R,
    w: &mut W,
    rel: Relation,
    lim: &Limits,
    h: &Hidden,
    m: &mut M,
) -> Result<Counts, Fault>
    requires source { R.failures r.old ≡ 0 }
    requires sink { W.failures w.old ≡ 0 }
    requires fresh { IsFresh (M.counted m.old) }

    // These clauses state what the call guarantees if it succeeds, and when each error is returned.
    ensures outcome { let asked = asks rel lim.now h.now in
        let source = used R.rest R.failures r.old r.new in
        let sink = used W.written W.failures w.old w.new in
        Takes source.before source.after
        (λ text. MinimisesTo asked text source sink (M.counted m.new))
        (λ given. MinimisationFails asked given source sink (M.counted m.new)) result }

    // These clauses state what `run_min` leaves unchanged if it fails.
    ensures untouched { IfErr result (λ _. W.failures w.new ≡ 0 → w.new ≡ w.old) }
{
    lim.invariants();
    let system: Lts<M> = read_hiding(alloc, r, lim, h)?;
    let counts = Counts {
        states: system.states(),
        transitions: system.edges(),
    };
    let quotient = minimise(alloc, &system, rel, m)?;
    write(alloc, &quotient, &mut Counter::new(), w)?;
    Ok(counts)
}
