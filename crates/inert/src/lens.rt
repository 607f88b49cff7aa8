//! A view of a system and its blocks. The view reads an inert transition as its target state, and every other
//! transition as its pair (label ID, target block).
ghost use Rattle.std.specs.Prelude.{◌≡◌, ◌<◌, length};
ghost use Rattle.lts.specs.Lts.{place_at, IsLts, IsRow};
ghost use Rattle.lts.specs.Meter.{HasRoomFor, Costs};
ghost use Rattle.lts.specs.Visited.{price};
ghost use Rattle.inert.specs.Steps.{under, given, FitsSystem, IsStep};
ghost use Rattle.inert.specs.Search.{Laws};

use lts::{Lts, Meter, Visited};
use std::marker::Model;

/// A view of a system and of the block of each state. The view distinguishes inert transitions from other transitions.
/// The field `visited` is `None`, or contains the places (indices) of the transitions that were already visited in this
/// round. A visit is a read of a transition that the meter counts. If the view reads a transition in `visited` again,
/// the meter does not count this read.
#[derive(Drop)]
pub struct Lens<'a, M: Meter> {
    l: &'a Lts<M>,
    blocks: &'a [u32],
    /// The ID of the internal label, if the label table has this label.
    internal: Option<u32>,
    visited: Option<&'a Visited>,
}

/// A transition as it is read through a `Lens`, which is a view of a system and its blocks.
#[derive(Clone, Copy)]
pub enum Step {
    /// An inert transition, with its target state.
    Inert(u32),
    /// A transition that is not inert, with its label ID and its target block.
    Shows(u32, u32),
}

impl<'a, M: Meter> Model for Lens<'a, M> {
    ghost use Rattle.inert.specs.Steps.{Under, under, given, Sees};

    ghost Value = { Under };

    ghost view = { λ x. under x.l.now x.blocks.now (given x.visited) };

    ghost invariant = { λ x. Sees (under x.l.now x.blocks.now (given x.visited)) x.internal };
}

impl<'a, M: Meter> Lens<'a, M> {
    /// Returns the view of the system `l`, where `blocks` contains the block of each state. If the place (index) of a
    /// transition is in `visited`, the meter does not count the reads of this transition.
    pub fn new(l: &'a Lts<M>, blocks: &'a [u32], visited: Option<&'a Visited>) -> Lens<'a, M>
        requires { FitsSystem (under l.now blocks.now (given visited)) }
        ensures { result ≡ under l.now blocks.now (given visited.entry) }
    {
        Lens {
            l,
            blocks,
            internal: l.labels().internal(),
            visited,
        }
    }

    /// This call is a lemma: it does nothing at run time. A `Lens` is a view of a system and its blocks. The contract
    /// states that the system satisfies its invariant (`IsLts`), and that there is exactly one block ID for each state.
    /// It also states laws about paths of inert transitions.
    #[inline(always)]
    pub fn invariants(&self)
        ensures lts { IsLts self.now.l }
        ensures size { length self.now.blocks ≡ self.now.l.states }
        ensures laws { Laws }
    {
        let _ = &self.blocks;
        self.l.invariants();
        theory::inert_steps_lead_on();
        theory::inert_steps_pass_signatures_back();
    }

    /// Returns the block of each state.
    #[inline(always)]
    pub fn blocks(&self) -> &[u32]
        ensures { result.now ≡ self.now.blocks }
    {
        self.blocks
    }

    /// The place of a transition is its index in the list of all transitions. Returns the range of the places at which
    /// the transitions of the state `s` are stored. The first result is the first place of the range, and the second
    /// result is the first place after the range.
    #[inline(always)]
    pub fn row(&self, s: u32) -> (u32, u32)
        requires { s < self.now.l.states }
        ensures { IsRow self.now.l.places s result.0 result.1 }
    {
        self.l.row(s)
    }

    /// Reads the transition at the place `k` (the index `k` in the list of all transitions), where `block` is the block
    /// of its source. The meter `m` counts this read as a visit, unless the transition was already visited in this
    /// round.
    #[inline(always)]
    pub fn step(&self, block: u32, k: u32, m: &mut M) -> Step
        requires place { k < length self.now.l.places }
        requires room { HasRoomFor (M.counted m.old) 0 (price self.now.visited k) }
        ensures step { IsStep self.now block (place_at self.now.l.places k) result }
        ensures visit { let n = price self.now.visited k in
            Costs (M.counted m.old) (M.counted m.new) 0 n n }
    {
        self.l.invariants();
        let (label, target) = match self.visited {
            None => self.l.edge(k, m),
            Some(visited) => visited.edge(self.l, k, m),
        };
        let other = self.blocks[target as usize];
        if let Some(id) = self.internal {
            if id == label && other == block {
                return Step::Inert(target);
            }
        }
        Step::Shows(label, other)
    }
}
