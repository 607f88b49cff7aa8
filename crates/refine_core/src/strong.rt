//! Rounds of refinement for strong bisimilarity. The signature of a state is the set of the pairs (label, target block)
//! of its transitions.
ghost use Rattle.std.specs.Prelude.{◌≡◌, ◌↔◌, ℕ, ◌+◌, ◌++◌, ◌∷◌, ◌<◌, [], length, map, slice_index, IsTrue, IfOk};
ghost use Rattle.std.specs.Prelude.{OnOk};
ghost use Rattle.std.specs.Vec.{vec_len, vec_capacity};
ghost use Rattle.theory.specs.declared.relation.Relation.TheVariants.{Strong as strong};
ghost use Rattle.lts.specs.Meter.{HasRoomFor, Costs, Visits};
ghost use Rattle.lts.specs.Lts.{row_of};
ghost use Rattle.lts.specs.Visited.{remaining_of};
ghost use Rattle.signatures.specs.Lists.{list_at, Grow};
ghost use Rattle.partition.specs.Blocks.{IsMember, HaveSignatureIds};
ghost use Rattle.inert.specs.Signed.{pair_under};
ghost use Rattle.inert.specs.Steps.{FitsSystem, under as inputs};
ghost use Rattle.refine_core.specs.Rounds.{list_of, HaveSignatures, HasNewBlock, IsStrongSplitSignature};

use crate::signed_blocks::SignedBlocks;
use crate::signing::Signing;
use lts::{Lts, Memory, Meter, Visited};
use signatures::{EMPTY, Interner, order};
use theory::Relation;

/// Strong bisimulation (Milner 1989).
pub struct Strong;

impl Signing for Strong {
    ghost relation = { strong };

    fn signed_relation() -> Relation {
        Relation::Strong
    }

    fn discard_cached(round: SignedBlocks) -> Result<SignedBlocks, Memory> {
        Ok(round)
    }

    fn sign<M: Meter>(l: &Lts<M>, round: SignedBlocks, m: &mut M) -> Result<SignedBlocks, Memory> {
        l.invariants();
        let mut round = round;
        round.signatures.clear();
        let under = NewBlocks {
            l,
            block_ids: round.blocks.block_ids(),
            first_new: round.blocks.first_new(),
        };
        sign_active(
            &under,
            &round.visited,
            round.blocks.active(),
            &mut round.pairs,
            &mut round.signatures,
            &mut round.signature_ids,
            m,
        )?;
        round.invariants();
        Ok(round)
    }
}

/// Computes the signatures of the states in `active` (the states that the round processes), interns these signatures in
/// `signatures`, and stores their IDs in `signature_ids`. A block is new if the last split has made it. If a state has
/// no transition to a new block, the function stores the ID of the empty signature for this state instead.
fn sign_active<M: Meter>(
    under: &NewBlocks<M>,
    visited: &Visited,
    active: &[u32],
    pairs: &mut Vec<(u32, u32)>,
    signatures: &mut Interner,
    signature_ids: &mut Vec<u32>,
    m: &mut M,
) -> Result<(), Memory>
    requires reads { FitsSystem (inputs under.now.l.now under.now.block_ids.now visited.now) }
    requires signatures { signatures.old ≡ [] ∷ [] }
    requires signature_ids { HaveSignatureIds under.now.l.now.states active.now
        signature_ids.old.items }
    requires room { HasRoomFor (M.counted m.old) 0
        (length (remaining_of visited.now under.now.l.now.places)) }
    ensures signed { OnOk result ((s : ℕ) → IsMember active.now s →
        IsStrongSplitSignature under.now.l.now under.now.block_ids.now under.now.first_new s
        (list_of signatures.new signature_ids.new.items s)) }
    ensures signature_ids { OnOk result
        (HaveSignatures under.now.block_ids.now active.now signatures.new signature_ids.new.items) }
    ensures cost { Costs (M.counted m.old) (M.counted m.new) 0 0
        (length (remaining_of visited.now under.now.l.now.places)) }
{
    for s in active {
        signature_ids[*s as usize] = intern_signature(under, visited, *s, pairs, signatures, m)?;
    }
    Ok(())
}

/// The input of the functions that read the row of a state (the list of its outgoing transitions). The input consists
/// of the system, the block ID of each state, and `first_new`. A block is new if the last split has made it, which
/// means that its ID is at least `first_new`.
#[derive(Drop)]
pub struct NewBlocks<'a, M: Meter> {
    pub l: &'a Lts<M>,
    pub block_ids: &'a [u32],
    pub first_new: u32,
}

/// Computes the signature of the state `s`, interns this signature, and returns its ID. If `s` has no transition to a
/// new block (a block that the last split has made), the function returns the ID of the empty signature instead.
fn intern_signature<M: Meter>(
    under: &NewBlocks<M>,
    visited: &Visited,
    s: u32,
    pairs: &mut Vec<(u32, u32)>,
    signatures: &mut Interner,
    m: &mut M,
) -> Result<u32, Memory>
    requires reads { FitsSystem (inputs under.now.l.now under.now.block_ids.now visited.now) }
    requires state { s < under.now.l.now.states }
    requires room { HasRoomFor (M.counted m.old) 0
        (length (row_of s (remaining_of visited.now under.now.l.now.places))) }
    ensures within { IfOk result (λ k. k < length signatures.new) }
    ensures put { IfOk result (λ k. IsStrongSplitSignature under.now.l.now under.now.block_ids.now
        under.now.first_new s (list_at signatures.new k)) }
    ensures grow { Grow signatures.old signatures.new }
    ensures visits { let n = length (row_of s (remaining_of visited.now under.now.l.now.places)) in
        Visits M.counted m.old m.new result n n }
{
    under.l.invariants();
    signatures.invariants();
    if !read_unvisited(under, visited, s, pairs, m)? {
        return Ok(EMPTY);
    }
    order(pairs);
    signatures.push(pairs)
}

/// Stores the pairs (label, target block) of the transitions of `s` in `pairs`, and returns whether at least one of
/// these pairs contains a new block, which is a block that the last split has made. A visit is a read of a transition
/// that the meter counts. If a transition of `s` was already visited in this round, `read_unvisited` reads the
/// transition, but the meter does not count this read. This is the only difference from the function `read`: when
/// `read` reads a transition, the meter always counts this read.
#[inline(always)]
#[tactic(auto, using(lts::proofs::CallerLemmas::left_none, lts::proofs::CallerLemmas::row_left))]
fn read_unvisited<M: Meter>(
    under: &NewBlocks<M>,
    visited: &Visited,
    s: u32,
    pairs: &mut Vec<(u32, u32)>,
    m: &mut M,
) -> Result<bool, Memory>
    requires reads { FitsSystem (inputs under.now.l.now under.now.block_ids.now visited.now) }
    requires state { s < under.now.l.now.states }
    requires room { HasRoomFor (M.counted m.old) 0
        (length (row_of s (remaining_of visited.now under.now.l.now.places))) }
    ensures pairs { OnOk result
        (pairs.new.items ≡ map (pair_under under.now.block_ids.now)
        (row_of s under.now.l.now.places)) }
    ensures affected { IfOk result
        (λ affected. IsTrue affected ↔ HasNewBlock under.now.first_new pairs.new.items) }
    ensures visits { let n = length (row_of s (remaining_of visited.now under.now.l.now.places)) in
        Visits M.counted m.old m.new result n n }
{
    if visited.is_empty() {
        return read(under, s, pairs, m);
    }
    lts::rows_follow();
    under.l.invariants();
    let (start, end) = under.l.row(s);
    pairs.clear();
    pairs.reserve((end - start) as usize)?;
    let mut affected = false;
    for k in start..end {
        let transition = visited.edge(under.l, k, m);
        affected = collect(
            under.block_ids,
            under.first_new,
            transition,
            affected,
            pairs,
        );
    }
    Ok(affected)
}

/// Stores the pairs (label, target block) of the transitions of `s` in `pairs`, in the order of these transitions.
/// Returns whether at least one of these pairs contains a new block, which is a block that the last split has made.
#[inline(always)]
pub fn read<M: Meter>(
    under: &NewBlocks<M>,
    s: u32,
    pairs: &mut Vec<(u32, u32)>,
    m: &mut M,
) -> Result<bool, Memory>
    requires states { length under.now.block_ids.now ≡ under.now.l.now.states }
    requires state { s < under.now.l.now.states }
    requires room { HasRoomFor (M.counted m.old) 0 (length (row_of s under.now.l.now.places)) }
    ensures pairs { OnOk result
        (pairs.new.items ≡ map (pair_under under.now.block_ids.now)
        (row_of s under.now.l.now.places)) }
    ensures affected { IfOk result
        (λ affected. IsTrue affected ↔ HasNewBlock under.now.first_new pairs.new.items) }
    ensures visits { let n = length (row_of s under.now.l.now.places) in
        Visits M.counted m.old m.new result n n }
{
    lts::rows_follow();
    under.l.invariants();
    let (start, end) = under.l.row(s);
    pairs.clear();
    pairs.reserve((end - start) as usize)?;
    let mut affected = false;
    let mut k = start;
    // A visit is a read of a transition that the meter counts. The loop makes two visits, and then stores two pairs.
    // After a store, the next visit has to wait until the visit counter has been loaded from memory again. Because the
    // loop makes two visits before each two stores, it waits half as often as with one visit before each store.
    while end - k >= 2 {
        let first = under.l.edge(k, m);
        let second = under.l.edge(k + 1, m);
        affected = collect(under.block_ids, under.first_new, first, affected, pairs);
        affected = collect(under.block_ids, under.first_new, second, affected, pairs);
        k += 2;
    }
    if k == end {
        return Ok(affected);
    }
    let last = under.l.edge(k, m);
    Ok(collect(under.block_ids, under.first_new, last, affected, pairs))
}

/// Appends the pair (label, target block) of a transition to `pairs`. A block is new if the last split has made it. The
/// argument `affected` must be true if and only if `pairs` contains a pair with a new block before the call. The
/// function returns whether `pairs` contains a pair with a new block after the call.
#[inline(always)]
fn collect(
    p: &[u32],
    first_new: u32,
    transition: (u32, u32),
    affected: bool,
    pairs: &mut Vec<(u32, u32)>,
) -> bool
    requires target { transition.1 < length p.now }
    requires affected { IsTrue affected ↔ HasNewBlock first_new pairs.old.items }
    requires room { vec_len pairs.old < vec_capacity pairs.old }
    ensures pairs { pairs.new.items
        ≡ pairs.old.items ++ (transition.0, slice_index p.now transition.1) ∷ [] }
    ensures affected { IsTrue result ↔ HasNewBlock first_new pairs.new.items }
    ensures room { (vec_len pairs.new ≡ vec_len pairs.old + 1)
        × (vec_capacity pairs.new ≡ vec_capacity pairs.old) }
{
    let block = p[transition.1 as usize];
    pairs.push_reserved((transition.0, block));
    affected || block >= first_new
}
