//! Makes a single round of refinement.
ghost use Rattle.std.specs.Prelude.{◌≡◌, length, slice_index, IfOk, OnOk, OnErr};
ghost use Rattle.theory.specs.Blocks.{Split};
ghost use Rattle.lts.specs.Meter.{HasRoomFor, Costs, CostsUpTo};
ghost use Rattle.lts.specs.Lts.{system_of};
ghost use Rattle.partition.specs.Partition.{IsSomePartition};

use crate::all_signatures::Signatures;
use crate::sense::{Marks, Sense};
use lts::{Lts, Memory, Meter};
use partition::Partition;
use std::alloc::Global;

/// Makes one round of refinement: splits the blocks of `p` by the signatures of the states (`Split`). The number of
/// visits (reads of transitions that the meter counts) equals the number of transitions. If the call fails, the meter
/// has counted at most one round, and the number of visits is at most the number of transitions.
pub fn round<S: Sense, M: Meter>(
    alloc: Global,
    l: &Lts<M>,
    p: &Partition,
    m: &mut M,
) -> Result<Partition, Memory>
    requires states { length p.now ≡ l.now.states }
    requires room { HasRoomFor (M.counted m.old) 1 (length l.now.places) }

    // On success
    ensures states { IfOk result (λ q. length q ≡ l.now.states) }
    ensures split { IfOk result
        (λ q. Split S.relation (system_of l.now) (slice_index p.now) (slice_index q)) }
    ensures numbered { IfOk result IsSomePartition }
    ensures costs { let n = length l.now.places in
        OnOk result (Costs (M.counted m.old) (M.counted m.new) 1 n n) }

    // On failure
    ensures err { OnErr result
        (CostsUpTo (M.counted m.old) (M.counted m.new) 1 (length l.now.places)) }
{
    let mut signatures = Signatures::new(alloc, l.states())?;
    let mut marks = Marks::new(alloc, l.states())?;
    l.invariants();
    m.start_round();
    signatures.fill::<S, M>(l, p, &mut marks, m)?;
    signatures.split(p)
}
