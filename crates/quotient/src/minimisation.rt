//! Computes the smallest system that is equivalent to a given system. The smallest system has one state for each class
//! of bisimilar reachable states.
ghost use Rattle.std.specs.Prelude.{◌≡◌, ℕ, ◌*◌, ◌≤◌, length, IfOk, OnOk};
ghost use Rattle.theory.specs.System.{System, IsSystem};
ghost use Rattle.theory.specs.Bisimulation.{Bisimilar, Equivalent};
ghost use Rattle.theory.specs.Blocks.{Turns};
ghost use Rattle.theory.specs.Quotient.{Quotient};
ghost use Rattle.lts.specs.Meter.{IsFresh, on_ok};
ghost use Rattle.lts.specs.Lts.{system_of};
ghost use Rattle.quotient.specs.Visits.{StaysWithin, quotient_passes};

use crate::{Relation, relation};
use lts::{Counter, Lts, Memory, Meter};
use quotient_core::quotient_of;
use std::alloc::Global;

/// Returns the quotient of a system. The quotient is the smallest system that is equivalent to the given system.
///
/// The quotient has one state for each class of bisimilar reachable states. The class of the first state of the system
/// becomes the state 0 of the quotient. The other classes become the states 1, 2 and so on, in the order of their least
/// reachable members.
///
/// The meter counts rounds of refinement and visits (reads of transitions), and must not have counted anything before.
/// If `minimise` succeeds, the number of rounds is the number of rounds that the refinement of the system takes. If
/// there are `r` rounds and `m` transitions, the number of visits is at least `r * m` and at most `(r + 2) * m`. If
/// `minimise` fails after `r` rounds, the number of visits is still at most `(r + 2) * m`.
pub fn minimise<M: Meter>(
    alloc: Global,
    l: &Lts<M>,
    r: Relation,
    m: &mut M,
) -> Result<Lts<Counter>, Memory>
    requires fresh { IsFresh (M.counted m.old) }

    // On success
    ensures quotient { IfOk result (λ q. Quotient r (system_of l.now) (system_of q)) }
    ensures equivalent { IfOk result (λ q. Equivalent r (system_of l.now) (system_of q)) }
    ensures no_two_bisimilar { IfOk result (λ q. (s t : ℕ) →
        Bisimilar r (system_of q) s (system_of q) t → s ≡ t) }
    ensures smallest { IfOk result (λ q. (B : System) →
        IsSystem B → Equivalent r (system_of l.now) B → q.states ≤ B.states) }
    ensures no_larger { IfOk result
        (λ q. (q.states ≤ l.now.states) × (length q.places ≤ length l.now.places)) }

    // The two clauses below are about the numbers of rounds and visits (reads of transitions). The clause `turns` holds
    // if the call succeeds, and the clause `keeps` always holds.
    ensures turns { OnOk result (Turns r (system_of l.now) (M.counted m.new).rounds) }
    ensures keeps { let at = M.counted m.new in let k = length l.now.places in
        StaysWithin l.now.states k quotient_passes at (on_ok result (at.rounds * k)) }
{
    l.invariants();
    theory::quotient_is_equivalent();
    theory::quotient_states_differ();
    theory::no_smaller_system();
    let blocks = relation::blocks(alloc, l, r, m)?;
    quotient_of(alloc, l, r, blocks, m)
}
