//! A partition of the states 0, 1, .. into blocks, which are numbered in the order of their least members.
ghost use Rattle.std.specs.Prelude.{◌≡◌, ◌↔◌, ℕ, ◌<◌, ◌≤◌, length, slice_index, IfOk};
ghost use Rattle.memory.specs.declared.limits.TheConstants.{MOST_STATES};
ghost use Rattle.partition.specs.Partition.{IsPartition, IsSomePartition, AreBlocks};

use memory::Memory;
use std::alloc::Global;
use std::marker::Model;

/// A partition of the states into blocks, stored as the block ID of each state. The IDs are the numbers less than the
/// number of blocks.
#[derive(Drop)]
pub struct Partition {
    pub(crate) blocks: Vec<u32>,
    pub(crate) count: u32,
}

impl Model for Partition {
    ghost use Rattle.std.specs.Prelude.{ℕ, List};

    ghost Value = { List ℕ };

    ghost view = { λ p. p.blocks.items };

    ghost use Rattle.partition.specs.Partition.{IsPartition};

    ghost invariant = { λ p. IsPartition p.blocks.items p.count };
}

impl Partition {
    /// Makes the partition in which all states are in one block. There may be 1 to 2,000,000 states.
    pub fn one(alloc: Global, states: u32) -> Result<Partition, Memory>
        requires some { 1 ≤ states }
        requires few { states ≤ MOST_STATES }
        ensures states { IfOk result (λ p. length p ≡ states) }
        ensures one { IfOk result (λ p. (s : ℕ) → s < states → slice_index p s ≡ 0) }
    {
        let blocks = vec![in alloc; 0u32; states as usize]?;
        Ok(Partition::from_blocks(blocks, 1))
    }

    /// Makes a partition that has `count` blocks. The argument `blocks` contains the block ID of each state.
    pub fn from_blocks(blocks: Vec<u32>, count: u32) -> Partition
        requires { IsPartition blocks.items count }
        ensures { result ≡ blocks.items }
    {
        Partition { blocks, count }
    }

    /// Returns the number of states, which is 1 to 2,000,000.
    pub fn states(&self) -> u32
        ensures value { result ≡ length self.now }
        ensures numbered { IsSomePartition self.now }
    {
        self.blocks.len() as u32
    }

    /// Returns the ID of the block of the state `s`.
    pub fn block(&self, s: u32) -> u32
        requires { s < length self.now }
        ensures { result ≡ slice_index self.now s }
    {
        self.blocks[s as usize]
    }

    /// Returns the number of blocks.
    pub fn count(&self) -> u32
        ensures { IsPartition self.now result }
    {
        self.count
    }

    /// Returns the block ID of each state, in the order of the states.
    pub fn blocks(&self) -> &[u32]
        ensures blocks { result.now ≡ self.now }
    {
        &self.blocks
    }
}

/// Gives new IDs to the blocks, and returns the partition with the new IDs. The new IDs are in the order of the least
/// members of the blocks.
pub fn renumber(alloc: Global, blocks: &[u32], count: u32) -> Result<Partition, Memory>
    requires { AreBlocks blocks.now count }
    ensures states { IfOk result (λ q. length q ≡ length blocks.now) }
    ensures same { IfOk result (λ q. (s t : ℕ) → s < length blocks.now → t < length blocks.now →
        (slice_index q s ≡ slice_index q t)
        ↔ (slice_index blocks.now s ≡ slice_index blocks.now t)) }
    ensures numbered { IfOk result IsSomePartition }
{
    let mut met = vec![in alloc; 0u32; count as usize]?;
    let mut ids = Vec::with_capacity(alloc, blocks.len())?;
    let mut next = 0;
    for s in 0..blocks.len() {
        let block = blocks[s] as usize;
        if met[block] == 0 {
            next += 1;
            met[block] = next;
        }
        ids.push(met[block] - 1)?;
    }
    Ok(Partition::from_blocks(ids, next))
}
