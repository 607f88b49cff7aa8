//! Computes the signatures of all states, and splits the blocks by these signatures.
ghost use Rattle.std.specs.Prelude.{◌≡◌, ◌↔◌, ℕ, ◌<◌, ◌≤◌, [], ◌∷◌, length, slice_index, IfOk, OnOk};
ghost use Rattle.memory.specs.declared.limits.TheConstants.{MOST_STATES};
ghost use Rattle.lts.specs.Meter.{HasRoomFor, Visits};
ghost use Rattle.signatures.specs.Lists.{list_at};
ghost use Rattle.partition.specs.Partition.{IsSomePartition};
ghost use Rattle.partition.specs.Blocks.{IsMember};
ghost use Rattle.inert.specs.Signed.{IsSignature};

use crate::buffer::SignatureBuffer;
use crate::sense::{Marks, Sense};
use lts::{Lts, Memory, Meter};
use partition::{Blocks, Partition, renumber};
use refine_core::sign_all;
use signatures::{EMPTY, Interner};
use std::alloc::Global;
use std::marker::Model;

/// The signatures of all states. A signature is a list of pairs (label ID, block ID).
#[derive(Drop)]
pub struct Signatures {
    alloc: Global,
    /// The ID of the signature of each state.
    signature_ids: Vec<u32>,
    interned: SignatureBuffer,
}

impl Model for Signatures {
    ghost use Rattle.std.specs.Prelude.{◌≡◌, ℕ, ◌≤◌, List, length, map};
    ghost use Rattle.memory.specs.declared.limits.TheConstants.{MOST_STATES};
    ghost use Rattle.signatures.specs.Lists.{list_at, AreIds};

    ghost Value = { List (List (ℕ × ℕ)) };

    ghost view = { λ g. map (list_at g.interned) g.signature_ids.items };

    ghost invariant = { λ g. AreIds g.interned g.signature_ids.items
        × (length g.signature_ids.items ≤ MOST_STATES) };
}

impl Signatures {
    /// Returns the signatures of `states` states. All of these signatures are empty. The number of states must be from
    /// 1 to 2,000,000 (`MOST_STATES`).
    pub fn new(alloc: Global, states: u32) -> Result<Signatures, Memory>
        requires some { 1 ≤ states }
        requires few { states ≤ MOST_STATES }
        ensures states { IfOk result (λ g. length g ≡ states) }
        ensures empty { IfOk result (λ g. (s : ℕ) → s < states → list_at g s ≡ []) }
    {
        Ok(Signatures {
            alloc,
            signature_ids: vec![in alloc; EMPTY; states as usize]?,
            interned: SignatureBuffer::new(alloc, &Interner::new(alloc, 1)?)?,
        })
    }

    /// Returns the number of states.
    pub fn states(&self) -> u32
        ensures { result ≡ length self.now }
    {
        self.signature_ids.len() as u32
    }

    /// Returns the signature of the state `s`.
    pub fn of(&self, s: u32) -> &[(u32, u32)]
        requires { s < length self.now }
        ensures { result.now ≡ list_at self.now s }
    {
        self.interned.of(self.signature_ids[s as usize])
    }

    /// Computes the signature of each state with respect to the blocks of `p`. If the call succeeds, the number of
    /// visits (reads of transitions that the meter counts) equals the number of transitions. If the call fails, the
    /// number of visits is at most the number of transitions, and it is unspecified which signatures the method `of`
    /// returns afterwards.
    pub fn fill<S: Sense, M: Meter>(
        &mut self,
        l: &Lts<M>,
        p: &Partition,
        marks: &mut Marks,
        m: &mut M,
    ) -> Result<(), Memory>
        requires states { length p.now ≡ l.now.states }
        requires marks { marks.old ≡ l.now.states }
        requires signatures { length self.old ≡ l.now.states }
        requires room { HasRoomFor (M.counted m.old) 0 (length l.now.places) }

        // On success
        ensures signed { OnOk result ((s : ℕ) → s < l.now.states →
            IsSignature S.relation l.now p.now s (list_at self.new s)) }

        // Always
        ensures visits { let n = length l.now.places in Visits M.counted m.old m.new result n n }
        ensures marks { marks.new ≡ marks.old }
        ensures signatures { length self.new ≡ length self.old }
    {
        let blocks = copied(self.alloc, p)?;
        let (interned, signature_ids) = sign_all::<S, M>(self.alloc, l, blocks, m)?;
        self.interned = SignatureBuffer::new(self.alloc, &interned)?;
        self.signature_ids = signature_ids;
        Ok(())
    }

    /// Splits the blocks of `p` by signatures: two states of a block stay in the same block if and only if their
    /// signatures are equal.
    pub fn split(&self, p: &Partition) -> Result<Partition, Memory>
        requires states { length p.now ≡ length self.now }
        ensures states { IfOk result (λ q. length q ≡ length p.now) }
        ensures blocks { IfOk result (λ q. (s t : ℕ) → s < length p.now → t < length p.now →
            (slice_index q s ≡ slice_index q t)
            ↔ ((slice_index p.now s ≡ slice_index p.now t)
            × (list_at self.now s ≡ list_at self.now t))) }
        ensures numbered { IfOk result IsSomePartition }
    {
        let blocks = copied(self.alloc, p)?;
        let parts = blocks.split(self.alloc, self.interned.len(), &self.signature_ids)?;
        renumber(self.alloc, parts.block_ids(), parts.count())
    }
}

/// Copies the blocks of `p`. In the copy, all states are active (a round processes them), and all blocks count as new
/// (`first_new` is 0). Because of this, the function `sign_all` can compute the signature of each state with respect to
/// the copy.
fn copied(alloc: Global, p: &Partition) -> Result<Blocks, Memory>
    ensures block_ids { IfOk result (λ b. b.block_ids ≡ p.now) }
    ensures first_new { IfOk result (λ b. b.first_new ≡ 0) }
    ensures active { IfOk result (λ b. (s : ℕ) → s < length p.now → IsMember b.active s) }
{
    let mut of = Vec::new(alloc);
    of.extend_from_slice(p.blocks())?;
    let copy = Partition::from_blocks(of, p.count());
    let active = all_states(alloc, p.states())?;
    Blocks::new(alloc, copy, active)
}

/// Returns the list of all states of a system with `states` states. States are numbers, so this is the list of the
/// numbers from 0 to `states` - 1, in ascending order.
fn all_states(alloc: Global, states: u32) -> Result<Vec<u32>, Memory>
    ensures states { IfOk result (λ v. length v.items ≡ states) }
    ensures each { IfOk result (λ v. (s : ℕ) → s < states → slice_index v.items s ≡ s) }
{
    let mut all = Vec::with_capacity(alloc, states as usize)?;
    for s in 0..states {
        all.push(s)?;
    }
    Ok(all)
}
