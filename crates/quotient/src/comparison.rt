//! Decides whether two systems are equivalent. To do so, it refines the union of the two systems.
ghost use Rattle.std.specs.Prelude.{◌↔◌, ◌+◌, ◌*◌, length, IsTrue, IfOk, OnOk};
ghost use Rattle.theory.specs.Bisimulation.{Equivalent};
ghost use Rattle.theory.specs.Blocks.{Turns};
ghost use Rattle.theory.specs.Union.{union_of};
ghost use Rattle.lts.specs.Lts.{system_of};
ghost use Rattle.lts.specs.Meter.{IsFresh, on_ok};
ghost use Rattle.lts.specs.Union.{FitTogether};
ghost use Rattle.quotient.specs.Visits.{StaysWithin, union_passes};

use crate::{Relation, relation};
use lts::{Lts, Memory, Meter, union};
use std::alloc::Global;

/// Returns whether the first states of two systems are bisimilar. The union of the two systems must be within the size
/// limits for a system. The meter counts rounds of refinement and visits (reads of transitions), and must not have
/// counted anything before.
///
/// The number of rounds is the number of rounds that the refinement of the union of the two systems takes. This number
/// is at most the number of states of both systems together. If there are `r` rounds, and both systems together have
/// `m` transitions, the number of visits is `(r + 1) * m`: building the union makes `m` visits, and each round makes
/// `m` visits.
///
/// If `equivalent` fails, the number of rounds is still at most the number of states of both systems together. If the
/// meter has counted `r` rounds before the failure, the number of visits is at most `(r + 1) * m`.
pub fn equivalent<M: Meter>(
    alloc: Global,
    a: &Lts<M>,
    b: &Lts<M>,
    r: Relation,
    m: &mut M,
) -> Result<bool, Memory>
    requires fresh { IsFresh (M.counted m.old) }
    requires fit { FitTogether a.now b.now }

    // On success
    ensures verdict { IfOk result
        (λ same. IsTrue same ↔ Equivalent r (system_of a.now) (system_of b.now)) }
    ensures turns { let both = union_of (system_of a.now) (system_of b.now) in
        OnOk result (Turns r both (M.counted m.new).rounds) }

    // Always
    ensures keeps { let at = M.counted m.new in let k = length a.now.places + length b.now.places in
        let states = a.now.states + b.now.states in
        StaysWithin states k union_passes at (on_ok result ((at.rounds + union_passes) * k)) }
{
    a.invariants();
    b.invariants();
    theory::the_union_decides_equivalence();
    let both = union(alloc, a, b, m)?;
    both.invariants();
    let blocks = relation::blocks(alloc, &both, r, m)?;
    let block_ids = blocks.block_ids();
    Ok(block_ids[a.first() as usize] == block_ids[(a.states() + b.first()) as usize])
}
