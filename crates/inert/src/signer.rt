//! The public interface of the search: computes the branching signatures of all states that a round processes.
ghost use Rattle.std.specs.Prelude.{◌≡◌, ℕ, ◌<◌, length, slice_index, OnOk};
ghost use Rattle.lts.specs.Meter.{HasRoomFor, Costs};
ghost use Rattle.lts.specs.Visited.{remaining_of};
ghost use Rattle.partition.specs.Blocks.{AreActive, InactiveHaveNone};
ghost use Rattle.inert.specs.Signed.{CachesBeside, SignsActive, IsIdIfChanged};
ghost use Rattle.inert.specs.Search.{stage_at, id_of, IsFinished, HasEnded};
ghost use Rattle.inert.specs.SearchMoves.{IsAtRest, ReturnsToRest};
ghost use Rattle.inert.specs.Steps.{under, remaining, given, FitsSystem};

use crate::depth_first_search::DepthFirstSearch;
use crate::lens::Lens;
use lts::{Lts, Memory, Meter, Visited};
use partition::Blocks;
use signatures::{EMPTY, Interner};
use std::alloc::Global;
use std::marker::Model;

/// Computes branching signatures. A `Signer` caches a signature for each state from round to round. The model of a
/// `Signer` is the list of the IDs of the cached signatures.
pub struct Signer {
    alloc: Global,
    /// The depth-first search. Between rounds, each state is completed, and its status contains the ID of its cached
    /// signature.
    search: DepthFirstSearch,
}

/// `Drop` is implemented explicitly to make proofs faster: see the row "Drops" of the table in `docs/changing.md`.
impl Drop for Signer {
    fn drop(self) {
        let Signer {
            alloc: _,
            search: _,
        } = self;
    }
}

impl Model for Signer {
    ghost use Rattle.std.specs.Prelude.{ℕ, List};
    ghost use Rattle.inert.specs.Search.{cached, HasEnded};

    ghost Value = { List ℕ };

    ghost view = { λ x. cached x.search.stages };

    ghost invariant = { λ x. HasEnded x.search };
}

impl Signer {
    /// Returns a signer for a system without states. The call allocates no memory.
    pub fn new(alloc: Global) -> Signer {
        Signer {
            alloc,
            search: DepthFirstSearch::new(alloc),
        }
    }

    /// Sets the number of states to `states`, and caches the empty signature for each state.
    pub fn forget(&mut self, states: u32) -> Result<(), Memory>
        ensures size { OnOk result (length self.new ≡ states) }
        ensures empty { OnOk result ((s : ℕ) → slice_index self.new s ≡ 0) }
    {
        self.search.finish_all(self.alloc, states)?;
        Ok(())
    }

    /// Interns the branching signature of each active state (a state that the round processes) in `signatures`, and
    /// caches the ID of this signature. The cached IDs of all other states do not change. If a state is not active but
    /// shares a block with an active state, the caller guarantees that the cached ID of this state is the ID of its
    /// signature. For each active state whose cached ID has changed, its entry in `signature_ids` is set to the new ID.
    /// For every other active state, its entry in `signature_ids` is set to the ID of the empty signature.
    ///
    /// After an error, it is unspecified which signatures are interned and which IDs are cached.
    pub fn sign_each<M: Meter>(
        &mut self,
        l: &Lts<M>,
        blocks: &Blocks,
        visited: &Visited,
        signatures: &mut Interner,
        signature_ids: &mut [u32],
        m: &mut M,
    ) -> Result<(), Memory>
        requires fits { FitsSystem (under l.now blocks.now.block_ids visited.now) }
        requires cached { CachesBeside l.now blocks.now.block_ids blocks.now.active
            signatures.old self.old }
        requires signature_ids { (length signature_ids.old ≡ l.now.states)
            × InactiveHaveNone blocks.now.active signature_ids.old }
        requires room { HasRoomFor (M.counted m.old) 0
            (length (remaining_of visited.now l.now.places)) }

        // On success
        ensures signs { OnOk result (SignsActive l.now blocks.now.block_ids blocks.now.active
            signatures.old signatures.new self.old self.new signature_ids.new) }

        // Always
        ensures visits { Costs (M.counted m.old) (M.counted m.new) 0 0
            (length (remaining_of visited.now l.now.places)) }
        ensures others { InactiveHaveNone blocks.now.active signature_ids.new }
    {
        signatures.invariants();
        let active = blocks.active();
        copy_cached_ids(&self.search, active, signature_ids);
        self.search.mark_unvisited(active);
        let lens = Lens::new(l, blocks.block_ids(), any(visited));
        match search_all(&mut self.search, &lens, active, signatures, m) {
            Ok(()) => {
                write_split_ids(&self.search, active, signature_ids);
                Ok(())
            }
            Err(refusal) => {
                // The search may have stopped at any point, so all cached signatures are discarded.
                self.search = DepthFirstSearch::new(self.alloc);
                Err(refusal)
            }
        }
    }
}

/// Returns `visited`, or `None` if no transition was visited in this round.
fn any(visited: &Visited) -> Option<&Visited>
    ensures { given result ≡ visited.now }
{
    if visited.is_empty() {
        return None;
    }
    Some(visited)
}

/// Copies the cached signature ID of each active state (each state that the round processes) to `signature_ids`. Every
/// other state must have the ID 0 in `signature_ids`, and keeps this ID.
fn copy_cached_ids(search: &DepthFirstSearch, active: &[u32], signature_ids: &mut [u32])
    requires size { length signature_ids.old ≡ length search.now.stages }
    requires active { AreActive (length search.now.stages) active.now }
    requires over { HasEnded search.now }
    requires none { InactiveHaveNone active.now signature_ids.old }
    ensures active { (i : ℕ) → i < length active.now →
        let s = slice_index active.now i in
        slice_index signature_ids.new s ≡ id_of (stage_at search.now.stages s) }
    ensures none { InactiveHaveNone active.now signature_ids.new }
{
    for i in 0..active.len() {
        let s = active[i] as usize;
        signature_ids[s] = search.signature_id(s);
    }
}

/// Goes through the active states (the states that the round processes) from the last to the first, and runs the search
/// from each state that is still unvisited. In many systems, the states are numbered in the order in which a state
/// space exploration has discovered them. For such systems, going from the last to the first has two advantages. First,
/// most transitions lead to states that are already completed. Second, transitions that are adjacent in memory are read
/// one after the other.
fn search_all<M: Meter>(
    search: &mut DepthFirstSearch,
    lens: &Lens<M>,
    active: &[u32],
    signatures: &mut Interner,
    m: &mut M,
) -> Result<(), Memory>
    requires active { AreActive lens.now.l.states active.now }
    requires rests { IsAtRest lens.now signatures.old search.old }
    requires room { HasRoomFor (M.counted m.old) 0 (length (remaining lens.now)) }
    ensures rests { OnOk result (ReturnsToRest lens.now signatures.old signatures.new
        (M.counted m.old) (M.counted m.new) search.old search.new) }
    ensures all { OnOk result ((i : ℕ) → i < length active.now →
        IsFinished search.new.stages (slice_index active.now i)) }
    ensures visits { Costs (M.counted m.old) (M.counted m.new) 0 0 (length (remaining lens.now)) }
{
    lens.invariants();
    for i in (0..active.len()).rev() {
        let s = active[i];
        if !search.is_unvisited(s) {
            continue;
        }
        search.finish(lens, s, signatures, m)?;
    }
    Ok(())
}

/// All active states (the states that the round processes) must be completed. The entry of an active state in
/// `signature_ids` is its old signature ID. If the new signature ID of the state is different, the function replaces
/// the entry by the new ID. If the two IDs are equal, the function replaces the entry by `EMPTY`, the ID of the empty
/// signature. Every other state must have the ID 0 in `signature_ids`, and keeps this ID.
fn write_split_ids(search: &DepthFirstSearch, active: &[u32], signature_ids: &mut [u32])
    requires size { length signature_ids.old ≡ length search.now.stages }
    requires active { AreActive (length search.now.stages) active.now }
    requires finished { (i : ℕ) → i < length active.now →
        IsFinished search.now.stages (slice_index active.now i) }
    requires none { InactiveHaveNone active.now signature_ids.old }
    ensures active { (i : ℕ) → i < length active.now → let s = slice_index active.now i in
        IsIdIfChanged (slice_index signature_ids.old s) (id_of (stage_at search.now.stages s))
        (slice_index signature_ids.new s) }
    ensures none { InactiveHaveNone active.now signature_ids.new }
{
    for i in 0..active.len() {
        let s = active[i] as usize;
        let id = search.signature_id(s);
        signature_ids[s] = if signature_ids[s] == id { EMPTY } else { id };
    }
}
