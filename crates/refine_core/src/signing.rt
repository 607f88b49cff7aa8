//! The first part of a round of refinement, which finds the active states (the states that the round processes) and
//! computes their signatures. The second part of the round is the split.
ghost use Rattle.std.specs.Prelude.{◌≡◌, ◌<◌, ℕ, length, IfOk};
ghost use Rattle.theory.specs.declared.relation.Relation.{Relation};
ghost use Rattle.theory.specs.declared.relation.Relation.TheVariants.{Branching as branching};
ghost use Rattle.lts.specs.Meter.{HasRoomFor, Costs, Visits, on_ok};
ghost use Rattle.lts.specs.Visited.{AreVisited, HasVisited, remaining_of};
ghost use Rattle.signatures.specs.Lists.{AreIds};
ghost use Rattle.partition.specs.Blocks.{IsMember};
ghost use Rattle.inert.specs.Signed.{IsSignature};
ghost use Rattle.refine_core.specs.Rounds.{HasNoSignatures, list_of, Awaits, IsReadyToSign, SignsRound};

use crate::signed_blocks::SignedBlocks;
use lts::{Lts, Memory, Meter, visit_rest};
use partition::Blocks;
use signatures::Interner;
use std::alloc::Global;
use theory::Relation;

/// A relation (strong or branching bisimilarity) for which rounds can compute signatures. The constant `relation` is
/// this relation as a value that contracts can mention.
pub trait Signing {
    ghost relation: { Relation };

    /// Returns this relation as a value that the program can use when it runs.
    fn signed_relation() -> Relation
        ensures { result ≡ relation };

    /// For branching bisimilarity, discards all signatures, including the signatures that are cached from round to
    /// round. For strong bisimilarity, does nothing, because strong signatures are not cached.
    fn discard_cached(round: SignedBlocks) -> Result<SignedBlocks, Memory>
        ensures same { IfOk result (λ r. (r.blocks ≡ round.blocks) × (r.index ≡ round.index)
            × (r.visited ≡ round.visited)) }
        ensures discarded { IfOk result (λ r. relation ≡ branching
            → HasNoSignatures r.blocks.block_ids r.signatures r.cached) };

    /// Computes the signatures of the active states (the states that the round processes), and stores signature IDs in
    /// `signature_ids`. Two states of a block get the same ID if and only if their signatures are equal (`SignsRound`).
    /// A visit is a read of a transition that the meter counts. If a transition was already visited in this round, the
    /// method may read the transition again, but the meter does not count this read.
    fn sign<M: Meter>(l: &Lts<M>, round: SignedBlocks, m: &mut M) -> Result<SignedBlocks, Memory>
        requires ready { IsReadyToSign relation l.now round }
        requires visited { AreVisited l.now.places round.visited }
        requires room { HasRoomFor (M.counted m.old) 0
            (length (remaining_of round.visited l.now.places)) }
        ensures signed { IfOk result (SignsRound relation l.now round) }
        ensures cost { Costs (M.counted m.old) (M.counted m.new) 0 0
            (length (remaining_of round.visited l.now.places)) };
}

/// Computes the signature of each state with respect to the blocks in `blocks`, as if no round had run before. All
/// states must be active (processed by the round), and all blocks must count as new (`first_new` is 0). Returns the
/// interned signatures and, for each state, the ID of its signature. If the call succeeds, the number of visits (reads
/// of transitions that the meter counts) equals the number of transitions.
pub fn sign_all<S: Signing, M: Meter>(
    alloc: Global,
    l: &Lts<M>,
    blocks: Blocks,
    m: &mut M,
) -> Result<(Interner, Vec<u32>), Memory>
    requires states { length blocks.block_ids ≡ l.now.states }
    requires active { (s : ℕ) → s < l.now.states → IsMember blocks.active s }
    requires new { blocks.first_new ≡ 0 }
    requires room { HasRoomFor (M.counted m.old) 0 (length l.now.places) }

    // On success
    ensures states { IfOk result (λ r. length r.1.items ≡ l.now.states) }
    ensures ids { IfOk result (λ r. AreIds r.0 r.1.items) }
    ensures signed { IfOk result (λ r. (s : ℕ) → s < l.now.states
        → IsSignature S.relation l.now blocks.block_ids s (list_of r.0 r.1.items s)) }

    // Always
    ensures visits { let n = length l.now.places in Visits M.counted m.old m.new result n n }
{
    let start = m.visits();
    let round = S::discard_cached(SignedBlocks::new(alloc, blocks)?)?;
    let signed = sign_and_visit_rest::<S, M>(l, round, start, m)?;
    signed.invariants();
    Ok(signed.into_signatures())
}

/// Computes the signatures of the active states, which are the states that the round processes. A visit is a read of a
/// transition that the meter counts. After the signatures have been computed, the function makes further visits and
/// ignores their results, until the number of visits in this round equals the number of transitions. The argument
/// `before` is the number of visits that the meter had counted when the round began.
pub(crate) fn sign_and_visit_rest<S: Signing, M: Meter>(
    l: &Lts<M>,
    round: SignedBlocks,
    before: u128,
    m: &mut M,
) -> Result<SignedBlocks, Memory>
    requires ready { IsReadyToSign S.relation l.now round }
    requires visited { let start = record (M.counted m.old) { visits = before } in
        HasVisited l.now.places start (M.counted m.old) round.visited }
    requires room { let start = record (M.counted m.old) { visits = before } in
        HasRoomFor start 0 (length l.now.places) }

    // On success
    ensures signed { IfOk result (SignsRound S.relation l.now round) }

    // Always
    ensures visits { let n = length l.now.places in
        let start = record (M.counted m.old) { visits = before } in
        Costs start (M.counted m.new) 0 (on_ok result n) n }
{
    let signed = S::sign(l, round, m)?;
    visit_rest(l, before, m);
    Ok(signed)
}

/// Begins a round: finds the active states (the states that the round processes). If too many signatures are stored,
/// the function discards all signatures, and activates all states that have an outgoing transition and are not in a
/// singleton block (`SignedBlocks::activate_all`). Otherwise, if there is a predecessor index, the function searches
/// this index for the active states (`SignedBlocks::find_active`). If there is no predecessor index, the active states
/// stay the same. In this case, the function calls `Signing::discard_cached`, and builds the index if this round is
/// late (if few blocks are new) and the earlier late rounds have done enough work (`SignedBlocks::begin_index`).
pub(crate) fn begin_round<S: Signing, M: Meter>(
    l: &Lts<M>,
    mut round: SignedBlocks,
    m: &mut M,
) -> Result<SignedBlocks, Memory>
    requires ready_for_round { Awaits S.relation l.now round }
    requires room { HasRoomFor (M.counted m.old) 0 (length l.now.places) }

    // On success
    ensures begun { IfOk result (IsReadyToSign S.relation l.now) }
    ensures blocks { IfOk result
        (λ r. r.blocks ≡ record round.blocks { active = r.blocks.active }) }
    ensures visited { IfOk result
        (λ r. HasVisited l.now.places (M.counted m.old) (M.counted m.new) r.visited) }

    // Always
    ensures cost { Costs (M.counted m.old) (M.counted m.new) 0 0 (length l.now.places) }
{
    if round.signatures.len() > round.most_signatures {
        return round.activate_all(l);
    }
    let relation = S::signed_relation();
    let Some(predecessors) = round.index.take() else {
        let round = S::discard_cached(round)?;
        return round.begin_index(l, relation, m);
    };
    round.find_active(predecessors, relation, l, m)
}
