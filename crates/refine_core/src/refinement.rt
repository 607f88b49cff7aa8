//! The loop over the rounds of refinement. The loop ends after the first round that splits no block.
ghost use Rattle.std.specs.Prelude.{◌≡◌, ◌↔◌, ℕ, ◌+◌, ◌*◌, ◌≤◌, length, slice_index, IfOk, OnOk, OnErr};
ghost use Rattle.theory.specs.Bisimulation.{Bisimilar};
ghost use Rattle.theory.specs.Blocks.{Turns, EachTwo};
ghost use Rattle.lts.specs.Meter.{HasRoomFor, Costs, CostsUpTo};
ghost use Rattle.lts.specs.Lts.{system_of};
ghost use Rattle.partition.specs.Partition.{IsSomePartition};
ghost use Rattle.refine_core.specs.Rounds.{Awaits, IsNextRound, RenumbersFew};

use crate::signed_blocks::{SignedBlocks, splittable_states};
use crate::signing::{Signing, begin_round, sign_and_visit_rest};
use lts::{Lts, Memory, Meter};
use partition::{Blocks, Partition, renumber, renumberings_are_few};
use std::alloc::Global;

/// Starts with one block that contains all states, and splits blocks in each round until two states share a block if
/// and only if they are bisimilar. Returns the blocks after the last round. The last round is the first round that
/// splits no block, and the meter counts it, too. A visit is a read of a transition that the meter counts. In each
/// round, the number of visits equals the number of transitions.
///
/// The returned blocks result from a sequence of splits in which the block ID of each state changes at most log2 n
/// times, where n is the number of states. If the call fails, the meter has counted at most n rounds. The number of
/// visits is then at most the number of the counted rounds times the number of transitions.
pub fn refine_blocks<S: Signing, M: Meter>(
    alloc: Global,
    l: &Lts<M>,
    m: &mut M,
) -> Result<Blocks, Memory>
    requires room { HasRoomFor (M.counted m.old) l.now.states (l.now.states * length l.now.places) }

    // On success
    ensures states { IfOk result (λ b. length b.block_ids ≡ l.now.states) }
    ensures bisimilar { let A = system_of l.now in IfOk result (λ b. EachTwo A (λ s t.
        (slice_index b.block_ids s ≡ slice_index b.block_ids t) ↔ Bisimilar S.relation A s A t)) }
    ensures few { IfOk result (λ b. RenumbersFew S.relation (system_of l.now) b.block_ids) }
    ensures turns { let n = length l.now.places in OnOk result ((r : ℕ) × (r ≤ l.now.states)
        × Turns S.relation (system_of l.now) r
        × Costs (M.counted m.old) (M.counted m.new) r (r * n) (r * n)) }

    // On failure
    ensures err { OnErr result
        (CostsUpTo (M.counted m.old) (M.counted m.new) l.now.states (length l.now.places)) }
{
    let blocks = Blocks::single_block(alloc, l.states(), Vec::new(alloc))?;
    let active = splittable_states(alloc, &blocks, l)?;
    let blocks = blocks.with_active(active);
    let mut round = SignedBlocks::new(alloc, blocks)?;
    theory::refinement_goes_on();
    theory::final_blocks_are_bisimilarity();
    renumberings_are_few();
    loop {
        let count = round.count();
        let before = round.drop_singletons()?;
        let next = next_round::<S, M>(before, l, m)?;
        let more = next.count();
        if more == count {
            return Ok(next.into_blocks());
        }
        round = next;
    }
}

/// Returns the same blocks as `refine_blocks`, but numbers the blocks in the order of their smallest states. If the
/// call fails, the meter has counted at most n rounds, where n is the number of states. The number of visits (reads of
/// transitions that the meter counts) is then at most the number of the counted rounds times the number of transitions.
pub fn refine<S: Signing, M: Meter>(
    alloc: Global,
    l: &Lts<M>,
    m: &mut M,
) -> Result<Partition, Memory>
    requires room { HasRoomFor (M.counted m.old) l.now.states (l.now.states * length l.now.places) }

    // On success
    ensures states { IfOk result (λ p. length p ≡ l.now.states) }
    ensures bisimilar { let A = system_of l.now in IfOk result (λ p. EachTwo A (λ s t.
        (slice_index p s ≡ slice_index p t) ↔ Bisimilar S.relation A s A t)) }
    ensures numbered { IfOk result IsSomePartition }
    ensures few { IfOk result (RenumbersFew S.relation (system_of l.now)) }
    ensures turns { let n = length l.now.places in OnOk result ((r : ℕ) × (r ≤ l.now.states)
        × Turns S.relation (system_of l.now) r
        × Costs (M.counted m.old) (M.counted m.new) r (r * n) (r * n)) }

    // On failure
    ensures err { OnErr result
        (CostsUpTo (M.counted m.old) (M.counted m.new) l.now.states (length l.now.places)) }
{
    let blocks = refine_blocks::<S, M>(alloc, l, m)?;
    renumber(alloc, blocks.block_ids(), blocks.count())
}

/// Makes one round: finds the active states (the states that the round processes), computes their signatures, and
/// splits the blocks by these signatures (`Split`). The meter counts one round, even if the call fails. The number of
/// visits (reads of transitions that the meter counts) is at most the number of transitions. If the call succeeds, the
/// two numbers are equal.
fn next_round<S: Signing, M: Meter>(
    round: SignedBlocks,
    l: &Lts<M>,
    m: &mut M,
) -> Result<SignedBlocks, Memory>
    requires ready_for_round { Awaits S.relation l.now round }
    requires room { HasRoomFor (M.counted m.old) 1 (length l.now.places) }

    // On success
    ensures next { IfOk result (IsNextRound S.relation l.now round.blocks.block_ids
        round.blocks.count) }
    ensures visits { OnOk result
        ((M.counted m.old).visits + length l.now.places ≤ (M.counted m.new).visits) }

    // Always
    ensures costs { Costs (M.counted m.old) (M.counted m.new) 1 0 (length l.now.places) }
{
    l.invariants();
    m.start_round();
    let before = m.visits();
    let begun = begin_round::<S, M>(l, round, m)?;
    let signed = sign_and_visit_rest::<S, M>(l, begun, before, m)?;
    signed.invariants();
    let next = signed.split()?;
    next.invariants();
    Ok(next)
}
