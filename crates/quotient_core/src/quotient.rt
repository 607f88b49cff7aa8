//! Builds the quotient of a system from the blocks of bisimilar states.
ghost use Rattle.std.specs.Prelude.{◌≡◌, ◌*◌, ◌≤◌, length, IfOk};
ghost use Rattle.theory.specs.Quotient.{Quotient};
ghost use Rattle.lts.specs.Meter.{HasRoomFor, Costs};
ghost use Rattle.lts.specs.Lts.{system_of};
ghost use Rattle.quotient_core.specs.Numbers.{AreClasses};

use crate::numbering::number;
use crate::search::reachable;
use crate::triples::shown_transitions;
use lts::{Counter, Lts, Memory, Meter};
use partition::Blocks;
use std::alloc::Global;
use theory::Relation;

/// Builds the quotient of the system `l` modulo the relation `r`. The blocks in `blocks` must be the classes of states
/// that are bisimilar for `r`. The call makes two passes over the transitions: the first pass finds the reachable
/// states, and the second pass builds the quotient. Each pass visits each transition at most once. A visit is a read of
/// a transition that the meter counts.
pub fn quotient_of<M: Meter>(
    alloc: Global,
    l: &Lts<M>,
    r: Relation,
    blocks: Blocks,
    m: &mut M,
) -> Result<Lts<Counter>, Memory>
    requires blocks_long { length blocks.block_ids ≡ l.now.states }
    requires classes { AreClasses r l.now blocks.block_ids }
    requires room { HasRoomFor (M.counted m.old) 0 (2 * length l.now.places) }
    ensures quotient { IfOk result (λ q. Quotient r (system_of l.now) (system_of q)) }
    ensures no_larger { IfOk result
        (λ q. (q.states ≤ l.now.states) × (length q.places ≤ length l.now.places)) }
    ensures visits { Costs (M.counted m.old) (M.counted m.new) 0 0 (2 * length l.now.places) }
{
    l.invariants();
    let reached = reachable(alloc, l, m)?;
    let numbering = number(alloc, l, r, blocks, reached)?;
    let shown = shown_transitions(alloc, l, &numbering, m)?;
    Lts::with_labels_of(l, 0, numbering.classes.len() as u32, shown)
}
