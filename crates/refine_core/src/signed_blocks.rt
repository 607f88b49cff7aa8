//! The data of a round of refinement: the blocks, the active states (the states that the round processes), the
//! signatures, and the predecessor index, which stores the transitions that lead to each state.
ghost use Rattle.std.specs.Prelude.{◌≡◌, ◌⊎◌, ℕ, ◌+◌, ◌*◌, ◌<◌, ◌≤◌, [], length, slice_index, IfOk, None, Some};
ghost use Rattle.memory.specs.declared.limits.TheConstants.{MOST_STATES};
ghost use Rattle.signatures.specs.Lists.{AreIds, AreLists};
ghost use Rattle.partition.specs.Partition.{AreBlocks};
ghost use Rattle.partition.specs.Blocks.{AreActive, AreSplitBlocks, DropsSingletons, InactiveHaveNone};
ghost use Rattle.refine_core.specs.Rounds.{HasNoSignatures, AreAllActive, Awaits, IsReadyToSign, MayBuildIndex};
ghost use Rattle.theory.specs.declared.relation.Relation.{Relation};
ghost use Rattle.lts.specs.Meter.{HasRoomFor, Costs};
ghost use Rattle.lts.specs.Visited.{HasVisited};

use crate::predecessors::{Predecessors, Search};
use inert::Signer;
use lts::{Lts, Memory, Meter, Visited};
use partition::Blocks;
use signatures::{EMPTY, Interner};
use std::alloc::Global;
use std::marker::Model;
use theory::Relation;

/// A block is new if the last split has made it. A round is late if the number of new blocks is less than the number of
/// all blocks divided by `LATE_ROUND_FRACTION`, rounded down. After a late round, usually only few states have to be
/// processed.
const LATE_ROUND_FRACTION: u32 = 4;

/// A round is late if few blocks are new. The method `SignedBlocks::needs_index` defines the work of a late round as a
/// number. For each system, there is a number n such that the predecessor index is built in a late round if the work of
/// all earlier late rounds together is at least n times the number of all states. This constant is the largest possible
/// n. If states have many transitions, building the index takes as much time as three rounds that process all states.
const MOST_FULL_ROUNDS: u32 = 6;

/// If states have few transitions, building the predecessor index takes less time, so the index is built after less
/// work. The index is built in a late round (a round in which few blocks are new) if the work of all earlier late
/// rounds together is at least n times the number of all states. To compute n, the average number of transitions of a
/// state is divided by `ROW_LENGTH_PER_FULL_ROUND`, and rounded down. If the result is greater than `MOST_FULL_ROUNDS`,
/// n is `MOST_FULL_ROUNDS` instead. The method `SignedBlocks::needs_index` defines the work of a late round.
const ROW_LENGTH_PER_FULL_ROUND: u32 = 2;

/// A round without a predecessor index goes through all blocks. The time for going through this number of blocks is
/// less than the time for processing one state.
const BLOCKS_PER_STATE: u32 = 8;

/// The blocks, the signatures, and the predecessor index of a round. The signatures are interned in `signatures`: equal
/// signatures are stored once and have the same ID. A split separates two states of a block if `signature_ids` contains
/// different IDs for the two states. For each state that the round does not process, `signature_ids` contains the ID of
/// the empty signature.
#[derive(Drop)]
pub struct SignedBlocks {
    pub(crate) alloc: Global,
    pub(crate) blocks: Blocks,
    pub(crate) signatures: Interner,
    pub(crate) signature_ids: Vec<u32>,
    /// Computes branching signatures. For each state, the signer caches the ID of the signature of the state from round
    /// to round.
    pub(crate) signer: Signer,
    /// The pairs (label, target block) of the transitions of one state. The same vector is used for all states, one
    /// after the other.
    pub(crate) pairs: Vec<(u32, u32)>,
    /// The predecessor index, or `None` before it is built. Without an index, a round processes the same states as the
    /// round before, except for the states that `drop_singletons` drops. With an index, each round begins with a search
    /// for the states that it has to process, unless the round discards all signatures. A round that discards all
    /// signatures processes all states that have an outgoing transition and are not in a singleton block
    /// (`activate_all`).
    pub(crate) index: Option<Predecessors>,
    /// The transitions that were visited in this round. When a round begins, this set is empty, because `split`, the
    /// last step of a round, empties it.
    pub(crate) visited: Visited,
    /// If more signatures than this number are stored after a round, the next round begins by discarding all
    /// signatures. Before the predecessor index is built, this number is `u32::MAX`, so that no round discards its
    /// signatures because of this limit.
    pub(crate) most_signatures: u32,
    /// The total work of all late rounds that were made without a predecessor index. A round is late if few blocks are
    /// new. The method `needs_index` defines the work of a late round as a number.
    late_work: u64,
}

impl Model for SignedBlocks {
    ghost use Rattle.std.specs.Prelude.{◌≡◌, length};
    ghost use Rattle.partition.specs.Blocks.{InactiveHaveNone};
    ghost use Rattle.refine_core.specs.Rounds.{Signed};

    ghost Value = { Signed };

    ghost view = { λ r. record {
      blocks = r.blocks;
      signatures = r.signatures;
      signature_ids = r.signature_ids.items;
      cached = r.signer;
      index = r.index;
      visited = r.visited;
    } };

    ghost invariant = { λ r. (length r.signature_ids.items ≡ length r.blocks.block_ids)
        × InactiveHaveNone r.blocks.active r.signature_ids.items };
}

impl SignedBlocks {
    /// Returns the data for a first round that starts with the blocks `blocks`. In this data, each state has the empty
    /// signature, and there is no predecessor index.
    pub fn new(alloc: Global, blocks: Blocks) -> Result<SignedBlocks, Memory>
        ensures blocks { IfOk result (λ r. r.blocks ≡ blocks) }
        ensures absent { IfOk result (λ r. r.index ≡ None) }
        ensures none { IfOk result (λ r. r.visited ≡ []) }
        ensures empty { IfOk result (λ r. (s : ℕ) → s < length r.signature_ids
            → slice_index r.signature_ids s ≡ 0) }
    {
        let states = blocks.block_ids().len();
        Ok(SignedBlocks {
            alloc,
            blocks,
            signature_ids: vec![in alloc; EMPTY; states]?,
            signatures: Interner::new(alloc, states as u32)?,
            visited: Visited::new(alloc),
            signer: Signer::new(alloc),
            pairs: Vec::new(alloc),
            index: None,
            most_signatures: u32::MAX,
            late_work: 0,
        })
    }

    /// Returns the number of blocks.
    pub fn count(&self) -> u32
        ensures { result ≡ self.now.blocks.count }
    {
        self.blocks.count()
    }

    /// Returns the interned signatures and the list `signature_ids`, which contains a signature ID for each state.
    /// Frees all other memory.
    pub fn into_signatures(self) -> (Interner, Vec<u32>)
        ensures { (result.0 ≡ self.signatures) × (result.1.items ≡ self.signature_ids) }
    {
        (self.signatures, self.signature_ids)
    }

    /// Returns the blocks. Frees all other memory.
    pub fn into_blocks(self) -> Blocks
        ensures { result ≡ self.blocks }
    {
        self.blocks
    }

    /// This method is a lemma, and does nothing when it runs. The contract of this method states what always holds for
    /// the blocks, for the active states (the states that the round processes), and for the signatures.
    pub fn invariants(&self)
        ensures blocks { AreBlocks self.now.blocks.block_ids self.now.blocks.count }
        ensures signatures { AreLists self.now.signatures }
        ensures states { length self.now.signature_ids ≡ length self.now.blocks.block_ids }
        ensures none { InactiveHaveNone self.now.blocks.active self.now.signature_ids }
        ensures active { AreActive (length self.now.blocks.block_ids) self.now.blocks.active }
    {
        self.signatures.invariants();
        let _ = self.blocks.active();
        let _ = self.blocks.block_ids();
    }

    /// The active states are the states that the round processes, and a singleton block is a block with one state. If
    /// the number of singleton blocks has grown by more than 1/32 of the number of active states since states were last
    /// dropped, this function drops the states in singleton blocks from the active states. Each dropped state gets the
    /// empty signature. If there is a predecessor index, the function does nothing, because the search in the index
    /// never finds states in singleton blocks.
    pub fn drop_singletons(mut self) -> Result<SignedBlocks, Memory>
        ensures same { IfOk result (λ r. r ≡ record self {
          blocks = record self.blocks { active = r.blocks.active };
          signature_ids = r.signature_ids;
        }) }
        ensures leaves { IfOk result (λ r.
            DropsSingletons self.blocks.block_ids self.blocks.active r.blocks.active) }
        ensures indexed { IfOk result (λ r. (self.index ≡ None) ⊎ (r ≡ self)) }
    {
        if self.index.is_some() {
            return Ok(self);
        }
        let blocks = self
            .blocks
            .drop_singletons(self.alloc, &mut self.signature_ids)?;
        Ok(SignedBlocks { blocks, ..self })
    }

    /// Discards all signatures, including the signatures that are cached from round to round. After the call, each
    /// state has the empty signature.
    pub fn discard_signatures(mut self) -> Result<SignedBlocks, Memory>
        ensures same { IfOk result (λ r. (r.blocks ≡ self.blocks) × (r.index ≡ self.index)
            × (r.visited ≡ self.visited)) }
        ensures discarded { IfOk result
            (λ r. HasNoSignatures r.blocks.block_ids r.signatures r.cached) }
        ensures empty { IfOk result (λ r. (s : ℕ) → s < length r.signature_ids
            → slice_index r.signature_ids s ≡ 0) }
    {
        let states = self.blocks.block_ids().len() as u32;
        forget(&mut self.signature_ids, &self.blocks);
        self.signatures.clear();
        self.signer.forget(states)?;
        Ok(self)
    }

    /// A block is new if the last split has made it, and a round is late if few blocks are new. This method builds the
    /// predecessor index if this round is late, and if the earlier late rounds together have done enough work
    /// (`needs_index`). A visit is a read of a transition that the meter counts. If the method builds the index, it
    /// visits each transition once, and discards all interned signatures except the empty signature.
    pub fn begin_index<M: Meter>(
        mut self,
        l: &Lts<M>,
        relation: Relation,
        m: &mut M,
    ) -> Result<SignedBlocks, Memory>
        requires states { length self.blocks.block_ids ≡ l.now.states }
        requires absent { self.index ≡ None }
        requires none { self.visited ≡ [] }
        requires room { HasRoomFor (M.counted m.old) 0 (length l.now.places) }
        ensures begins { IfOk result (MayBuildIndex relation l.now self) }
        ensures visited { IfOk result
            (λ r. HasVisited l.now.places (M.counted m.old) (M.counted m.new) r.visited) }
        ensures cost { Costs (M.counted m.old) (M.counted m.new) 0 0 (length l.now.places) }
    {
        if !self.needs_index(l) {
            return Ok(self);
        }
        forget(&mut self.signature_ids, &self.blocks);
        // The interner can still hold the memory of many signatures of earlier rounds. This memory is freed before
        // memory for the index is allocated.
        self.signatures = Interner::new(self.alloc, 1)?;
        let blocks = self.blocks.with_positions(self.alloc)?;
        let (predecessors, visited) = Predecessors::new(self.alloc, l, relation, m)?;
        let most_signatures = most_signatures(blocks.active());
        Ok(SignedBlocks {
            blocks,
            index: Some(predecessors),
            most_signatures,
            visited,
            ..self
        })
    }

    /// Returns whether this round has to build the predecessor index. A block is new if the last split has made it, and
    /// a round is late if the number of new blocks is less than a quarter of the number of all blocks, rounded down.
    /// The work of a late round without an index is the number of states that it processes, plus the number of blocks
    /// divided by `BLOCKS_PER_STATE`.
    ///
    /// Let n be half of the average number of transitions of a state, rounded down, but at most `MOST_FULL_ROUNDS`. A
    /// late round has to build the index if the work of all late rounds before it is at least n times the number of all
    /// states. If a late round does not have to build the index, the call adds the work of this round to `late_work`.
    /// The number n was chosen so that all late rounds without an index together take at most about twice as long as
    /// building the index. If most states are in singleton blocks (blocks with one state), a round processes few
    /// states, and the index is built later or never.
    fn needs_index<M: Meter>(&mut self, l: &Lts<M>) -> bool
        ensures { self.new ≡ self.old }
    {
        let count = self.blocks.count();
        if self.blocks.first_new() <= count - count / LATE_ROUND_FRACTION {
            return false;
        }
        let mean_row = l.edges() / l.states();
        let most = MOST_FULL_ROUNDS.min(mean_row / ROW_LENGTH_PER_FULL_ROUND);
        if self.late_work / u64::from(l.states()) >= u64::from(most) {
            return true;
        }
        let work = self.blocks.active().len() as u32 + count / BLOCKS_PER_STATE;
        self.late_work = self.late_work.saturating_add(u64::from(work));
        false
    }

    /// Searches the predecessor index `predecessors` for the active states of this round, which are the states that the
    /// round processes. The index is stored in the returned data. The search starts at the states of new blocks, which
    /// are the blocks that the last split has made, and looks up the transitions that lead to these states. For
    /// branching bisimilarity, the search then goes back along inert transitions. Each lookup is a visit (a read of a
    /// transition that the meter counts).
    pub(crate) fn find_active<M: Meter>(
        mut self,
        predecessors: Predecessors,
        relation: Relation,
        l: &Lts<M>,
        m: &mut M,
    ) -> Result<SignedBlocks, Memory>
        requires awaits { Awaits relation l.now (record self { index = Some predecessors }) }
        requires room { HasRoomFor (M.counted m.old) 0 (length l.now.places) }

        // On success
        ensures begun { IfOk result (IsReadyToSign relation l.now) }
        ensures index { IfOk result (λ r. ¬ (r.index ≡ None)) }
        ensures blocks { IfOk result
            (λ r. r.blocks ≡ record self.blocks { active = r.blocks.active }) }
        ensures visited { IfOk result
            (λ r. HasVisited l.now.places (M.counted m.old) (M.counted m.new) r.visited) }

        // Always
        ensures cost { Costs (M.counted m.old) (M.counted m.new) 0 0 (length l.now.places) }
    {
        l.invariants();
        let search = Search {
            alloc: self.alloc,
            l,
            blocks: &self.blocks,
            relation,
        };
        let (predecessors, active) = predecessors.search_back(&search, &mut self.visited, m)?;
        forget(&mut self.signature_ids, &self.blocks);
        let blocks = self.blocks.with_active(active);
        Ok(SignedBlocks {
            blocks,
            index: Some(predecessors),
            ..self
        })
    }

    /// Discards all signatures, and activates all states that have an outgoing transition and are not in a singleton
    /// block (a block with one state). The round then processes the activated states.
    pub(crate) fn activate_all<M: Meter>(self, l: &Lts<M>) -> Result<SignedBlocks, Memory>
        requires states { length self.blocks.block_ids ≡ l.now.states }
        ensures begun { IfOk result (λ r. (rel : Relation) → Awaits rel l.now self
            → IsReadyToSign rel l.now r) }
        ensures blocks { IfOk result
            (λ r. r.blocks ≡ record self.blocks { active = r.blocks.active }) }
        ensures visited { IfOk result (λ r. r.visited ≡ self.visited) }
        ensures index { IfOk result (λ r. r.index ≡ self.index) }
        ensures discarded { IfOk result
            (λ r. HasNoSignatures r.blocks.block_ids r.signatures r.cached) }
    {
        let round = self.discard_signatures()?;
        let active = splittable_states(round.alloc, &round.blocks, l)?;
        let most_signatures = most_signatures(&active);
        let blocks = round.blocks.with_active(active);
        Ok(SignedBlocks {
            blocks,
            most_signatures,
            ..round
        })
    }

    /// Splits the blocks. Two states of a block stay together if and only if `signature_ids` contains the same ID for
    /// both states. For the next round, the function empties the set of the transitions that were visited (read and
    /// counted) in this round.
    pub(crate) fn split(mut self) -> Result<SignedBlocks, Memory>
        requires ids { AreIds self.signatures self.signature_ids }
        ensures same { IfOk result (λ q. q ≡ record self { blocks = q.blocks; visited = [] }) }
        ensures split { IfOk result
            (λ q. AreSplitBlocks self.blocks self.signature_ids q.blocks) }
    {
        self.visited.clear();
        let stored = self.signatures.len();
        let blocks = self.blocks.split(self.alloc, stored, &self.signature_ids)?;
        Ok(SignedBlocks { blocks, ..self })
    }
}

/// Returns the limit `most_signatures`: if more signatures than this limit are stored after a round, the next round
/// discards all signatures. A round that processes the states in `active` makes at most one signature for each of these
/// states, and the empty signature. The limit is twice this number of signatures.
fn most_signatures(active: &[u32]) -> u32
    requires { length active.now ≤ MOST_STATES }
    ensures { result ≡ 2 * (length active.now + 1) }
{
    2 * (active.len() as u32 + 1)
}

/// Returns, in ascending order, the states that have an outgoing transition and are not in a singleton block (a block
/// with one state). The header of an `.aut` file can declare many states without an outgoing transition, and rounds
/// need not process such states.
pub(crate) fn splittable_states<M: Meter>(
    alloc: Global,
    blocks: &Blocks,
    l: &Lts<M>,
) -> Result<Vec<u32>, Memory>
    requires states { length blocks.now.block_ids ≡ l.now.states }
    ensures ascending { IfOk result (λ v. AreActive l.now.states v.items) }
    ensures others { IfOk result (λ v. AreAllActive l.now blocks.now.block_ids v.items) }
{
    let mut active = Vec::with_capacity(alloc, l.states() as usize)?;
    for s in 0..l.states() {
        let (start, end) = l.row(s);
        if start == end {
            continue;
        }
        if blocks.is_singleton(s) {
            continue;
        }
        active.push(s)?;
    }
    Ok(active)
}

/// Sets the signature ID of each active state of `blocks` to the ID of the empty signature. For all other states,
/// `signature_ids` must already contain the ID of the empty signature.
fn forget(signature_ids: &mut Vec<u32>, blocks: &Blocks)
    requires states { length signature_ids.old.items ≡ length blocks.now.block_ids }
    requires none { InactiveHaveNone blocks.now.active signature_ids.old.items }
    ensures states { length signature_ids.new.items ≡ length blocks.now.block_ids }
    ensures empty { (s : ℕ) → s < length signature_ids.new.items
        → slice_index signature_ids.new.items s ≡ 0 }
{
    let active = blocks.active();
    for i in 0..active.len() {
        signature_ids[active[i] as usize] = EMPTY;
    }
}
