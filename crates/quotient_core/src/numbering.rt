//! Assigns a class number to each reachable state. The class number of a state is the number of the quotient state that
//! represents this state. The class of the first state of the system has the class number 0. The other classes have the
//! numbers 1, 2 and so on, in the order of their least reachable members. The module also determines which label, if
//! any, the quotient drops: the quotient leaves out all transitions that have this label and lead from a class to
//! itself.
ghost use Rattle.std.specs.Prelude.{◌≡◌, ◌↔◌, ℕ, ◌<◌, true, length, IfOk, OnOk};
ghost use Rattle.theory.specs.System.{Reachable};
ghost use Rattle.theory.specs.Quotient.{IsDropped};
ghost use Rattle.lts.specs.Lts.{Triple, transition_of, system_of};
ghost use Rattle.quotient_core.specs.Numbers.{IsMarked, AreClasses, IsNumbering, TakesState};
ghost use Rattle.quotient_core.specs.Triples.{is_left_out, is_reached, number_of};

use lts::{Labels, Lts, Memory, Meter};
use partition::Blocks;
use std::alloc::Global;
use theory::Relation;

/// In the table `by_block`, this value is the entry of each block that has no class number yet. The class number of a
/// block is the number of the quotient state that represents the reachable states of this block.
const NONE: u32 = u32::MAX;

/// The result of the function `number`: the blocks of a system, the reachable states and their class numbers, the block
/// of each class, and the label that the quotient drops. The class number of a reachable state is the number of the
/// quotient state that represents this state.
#[derive(Drop)]
pub(crate) struct Numbering {
    pub(crate) blocks: Blocks,
    /// The entry of each state is true if the state is reachable.
    pub(crate) reached: Vec<bool>,
    /// The class number of each reachable state. The class number of a state is the number of the quotient state that
    /// represents this state. The entries of unreachable states are not used.
    pub(crate) numbers: Vec<u32>,
    /// The block ID of each class. The block ID of the class with the number i is stored at the index i.
    pub(crate) classes: Vec<u32>,
    /// The ID of the label that the quotient drops, or `None` if it drops no label. The quotient leaves out all
    /// transitions that have the dropped label and lead from a class to itself.
    pub(crate) dropped: Option<u32>,
}

impl Numbering {
    /// Returns whether the state `s` is reachable.
    #[inline(always)]
    pub fn is_reached(&self, s: u32) -> bool
        requires { s < length self.now.reached.items }
        ensures { result ≡ is_reached self.now s }
    {
        self.reached[s as usize]
    }

    /// Returns the class number of the state `s`. If `s` is reachable, its class number is the number of the quotient
    /// state that represents `s`.
    #[inline(always)]
    pub fn number(&self, s: u32) -> u32
        requires { s < length self.now.numbers.items }
        ensures { result ≡ number_of self.now s }
    {
        self.numbers[s as usize]
    }

    /// Returns whether the quotient leaves out the transition `triple`, which consists of its source, its label ID and
    /// its target. The source and the target are class numbers. The quotient leaves out the transition if its label is
    /// the dropped label (`dropped`) and its source equals its target.
    #[inline(always)]
    pub fn leaves_out(&self, triple: (u32, u32, u32)) -> bool
        ensures { result ≡ is_left_out self.now.dropped triple }
    {
        match self.dropped {
            Some(label) => triple.1 == label && triple.0 == triple.2,
            None => false,
        }
    }
}

/// The data of the loop of the function `number`: the class numbers that the loop has assigned so far, and the blocks
/// of the classes with these numbers. A class number is the number of the quotient state that represents the class. The
/// loop processes the states in ascending order.
#[derive(Drop)]
struct Numbers {
    /// The class number of each block, or `NONE` if the block has no class number yet. The class number of a block is
    /// the number of the quotient state that represents the reachable states of the block.
    by_block: Vec<u32>,
    numbers: Vec<u32>,
    classes: Vec<u32>,
}

/// Assigns a class number to each reachable state. The class number of a state is the number of the quotient state that
/// represents this state. The blocks must be the classes of states that are bisimilar for the relation `r`. For each
/// reachable state, the entry in `reached` must be true, and all other entries must be false. The result also stores
/// the ID of the label that the quotient drops, or `None` if it drops no label (`Numbering::dropped`).
pub(crate) fn number<M: Meter>(
    alloc: Global,
    l: &Lts<M>,
    r: Relation,
    blocks: Blocks,
    reached: Vec<bool>,
) -> Result<Numbering, Memory>
    requires blocks_long { length blocks.block_ids ≡ l.now.states }
    requires classes { AreClasses r l.now blocks.block_ids }
    requires reached_long { length reached.items ≡ l.now.states }
    requires reached { (s : ℕ) → IsMarked reached.items s ↔ Reachable (system_of l.now) s }
    ensures { IfOk result (IsNumbering r l.now) }
{
    let first = blocks.block_ids()[l.first() as usize];
    let mut taken = Numbers {
        by_block: vec![in alloc; NONE; blocks.count() as usize]?,
        numbers: Vec::with_capacity(alloc, l.states() as usize)?,
        classes: vec![in alloc; first]?,
    };
    taken.by_block[first as usize] = 0;
    for s in 0..l.states() {
        taken.add(blocks.block_ids()[s as usize], reached[s as usize])?;
    }
    Ok(Numbering {
        blocks,
        reached,
        numbers: taken.numbers,
        classes: taken.classes,
        dropped: dropped(r, l.labels()),
    })
}

/// Returns the ID of the label that the quotient modulo `r` drops, or `None` if the quotient drops no label. The
/// quotient leaves out all transitions that have the dropped label and lead from a class to itself. For branching
/// bisimilarity, the dropped label is the internal label, if the label table of the system contains this label. For
/// strong bisimilarity, the quotient drops no label.
fn dropped(r: Relation, labels: &Labels) -> Option<u32>
    ensures { (x : Triple) → (is_left_out result x ≡ true)
        ↔ IsDropped r (transition_of labels.now x) }
{
    labels.invariants();
    match r {
        Relation::Strong => None,
        Relation::Branching => labels.internal(),
    }
}

impl Numbers {
    /// Processes the next state of the loop, which is in the block `b`. The argument `is_reached` is true if this state
    /// is reachable. If it is reachable and its block has no class number yet, the block gets the next class number. A
    /// class number is the number of a quotient state. In any case, the entry that the table `by_block` then contains
    /// for the block is appended to `numbers`.
    fn add(&mut self, b: u32, is_reached: bool) -> Result<(), Memory>
        requires block { b < length self.old.by_block.items }
        requires room { length self.old.classes.items < NONE }
        ensures { OnOk result (TakesState b is_reached self.old self.new) }
    {
        if is_reached && self.by_block[b as usize] == NONE {
            self.by_block[b as usize] = self.classes.len() as u32;
            self.classes.push(b)?;
        }
        self.numbers.push(self.by_block[b as usize])?;
        Ok(())
    }
}
