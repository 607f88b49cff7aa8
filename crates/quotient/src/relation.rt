//! Computes the blocks of bisimilar states by partition refinement. The caller passes the relation (strong or branching
//! bisimilarity) as an argument.
ghost use Rattle.std.specs.Prelude.{◌≡◌, ℕ, ◌*◌, ◌≤◌, length, IfOk, OnOk, OnErr};
ghost use Rattle.theory.specs.Blocks.{Turns};
ghost use Rattle.lts.specs.Lts.{system_of};
ghost use Rattle.lts.specs.Meter.{HasRoomFor, Costs, CostsUpTo};
ghost use Rattle.quotient_core.specs.Numbers.{AreClasses};

use lts::{Lts, Memory, Meter};
use partition::Blocks;
use refine_core::{Branching, Strong, refine_blocks};
use std::alloc::Global;
use theory::Relation;

/// Returns the blocks of bisimilar states: two states share a block if and only if they are bisimilar for the relation
/// `r`.
pub(crate) fn blocks<M: Meter>(
    alloc: Global,
    l: &Lts<M>,
    r: Relation,
    m: &mut M,
) -> Result<Blocks, Memory>
    requires room { HasRoomFor (M.counted m.old) l.now.states (l.now.states * length l.now.places) }

    // On success
    ensures states { IfOk result (λ b. length b.block_ids ≡ l.now.states) }
    ensures classes { IfOk result (λ b. AreClasses r l.now b.block_ids) }
    ensures turns { let n = length l.now.places in OnOk result ((k : ℕ) × (k ≤ l.now.states)
        × Turns r (system_of l.now) k
        × Costs (M.counted m.old) (M.counted m.new) k (k * n) (k * n)) }

    // On failure
    ensures err { OnErr result
        (CostsUpTo (M.counted m.old) (M.counted m.new) l.now.states (length l.now.places)) }
{
    l.invariants();
    // If the system has no internal label, both relations have the same classes, and refinement takes the same number
    // of rounds for both. In this case, refinement uses strong signatures, because they take less time to compute. Two
    // calls of `refine_blocks::<Strong, M>` would make branching refinement 4 % slower, because the compiler then no
    // longer keeps the number of visits in a register.
    match (r, l.labels().internal()) {
        (Relation::Branching, Some(_)) => refine_blocks::<Branching, M>(alloc, l, m),
        _ => refine_blocks::<Strong, M>(alloc, l, m),
    }
}
