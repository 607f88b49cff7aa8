//! Computes the branching signature of one state. To do so, the module searches for the states to which inert
//! transitions lead from this state. Inert transitions are internal transitions within a block. The search reads each
//! outgoing transition of each found state exactly once.
ghost use Rattle.std.specs.Prelude.{◌≡◌, ℕ, ◌+◌, ◌<◌, ◌≤◌, [], length, slice_index, IfOk, OnOk, OnErr};
ghost use Rattle.theory.specs.declared.relation.Relation.TheVariants.{Branching};
ghost use Rattle.lts.specs.Meter.{HasRoomFor, Visits};
ghost use Rattle.lts.specs.Lts.{row_of};
ghost use Rattle.inert.specs.Signed.{IsSignature};
ghost use Rattle.inert.specs.declared.lens.Step.TheVariants.{Inert};
ghost use Rattle.refine_core.specs.Index.{AreMarked, IsUnmarked};
ghost use Rattle.refine.specs.Search.{IsClear, Reaches, ExploresStep, FindsFrom, Continues};

use inert::{Lens, Step};
use lts::{Lts, Memory, Meter};
use signatures::order;
use std::alloc::Global;
use std::marker::Model;

/// The data of a search along inert transitions, which are internal transitions within a block. Several searches use
/// the same memory, one after the other. Between two searches, no state is marked.
#[derive(Drop)]
pub(crate) struct Search {
    /// The mark of each state. A state is marked if the search has found it.
    marked: Vec<bool>,
    /// The states that the search has found, in the order in which it has found them.
    states: Vec<u32>,
    /// The pairs that the search has collected. For each transition that is not inert and starts in a found state, the
    /// search collects one pair: the label ID of the transition, and the block ID of its target.
    pub pairs: Vec<(u32, u32)>,
}

impl Model for Search {
    ghost use Rattle.refine.specs.Search.{FoundStates};

    ghost Value = { FoundStates };

    ghost view = { λ x. record {
      marked = x.marked.items;
      states = x.states.items;
      pairs = x.pairs.items;
    } };
}

impl Search {
    /// Returns the data of a search that has not begun yet, for a system with `states` states. No state is marked.
    pub fn new(alloc: Global, states: u32) -> Result<Search, Memory>
        ensures { IfOk result (IsClear states) }
    {
        Ok(Search {
            marked: vec![in alloc; false; states as usize]?,
            states: Vec::new(alloc),
            pairs: Vec::new(alloc),
        })
    }

    /// Stores the branching signature of the state `s` in the field `pairs`. The argument `blocks` contains the block
    /// ID of each state. The time that the call takes depends on the states that the search finds and on their
    /// transitions, but not on the number of all states. When the call returns, no state is marked, even if the call
    /// has failed.
    pub fn sign<'a, M: Meter>(
        &mut self,
        l: &'a Lts<M>,
        blocks: &'a [u32],
        s: u32,
        m: &mut M,
    ) -> Result<(), Memory>
        requires blocks { length blocks.now ≡ l.now.states }
        requires state { s < l.now.states }
        requires clear { IsClear l.now.states self.old }
        requires room { HasRoomFor (M.counted m.old) 0 (length l.now.places) }
        ensures signature { OnOk result (IsSignature Branching l.now blocks.now s self.new.pairs) }
        ensures clear { IsClear l.now.states self.new }
        ensures visits { Visits M.counted m.old m.new result
            (length (row_of s l.now.places)) (length l.now.places) }
    {
        theory::inert_steps_stay();
        let lens = Lens::new(l, blocks, None);
        lens.invariants();
        let found = self.find(&lens, s, m);
        unmark(&mut self.marked, &self.states);
        found?;
        order(&mut self.pairs);
        Ok(())
    }

    /// Finds the states to which inert transitions (internal transitions within a block) lead from `s`, including `s`
    /// itself. For each transition of these states that is not inert, the function collects a pair: the label ID of the
    /// transition, and the block ID of its target. Even if the call fails, exactly the states in the list `states` are
    /// marked when the call returns.
    #[tactic(auto, using(crate::proofs::Searching::search_bounds))]
    fn find<M: Meter>(&mut self, lens: &Lens<M>, s: u32, m: &mut M) -> Result<(), Memory>
        requires visited { lens.now.visited ≡ [] }
        requires state { s < lens.now.l.states }
        requires clear { IsClear lens.now.l.states self.old }
        requires room { HasRoomFor (M.counted m.old) 0 (length lens.now.l.places) }
        ensures found { OnOk result (FindsFrom lens.now s self.new (length self.new.states)) }
        ensures marks { (length self.new.marked ≡ lens.now.l.states)
            × AreMarked self.new.marked self.new.states }
        ensures visits { Visits M.counted m.old m.new result
            (length (row_of s lens.now.l.places)) (length lens.now.l.places) }
    {
        lens.invariants();
        self.states.clear();
        self.pairs.clear();
        self.reach(s)?;
        let mut i = 0;
        while i < self.states.len() {
            self.read(lens, s, i, m)?;
            i += 1;
        }
        Ok(())
    }

    /// Reads the transitions of one state that the search has found. This state is at the index `i` in the list of
    /// found states. The search began at the state `s`. The targets of the inert transitions of the state at the index
    /// `i` become found states, too. The pairs (label ID, target block) of all other transitions of this state are
    /// collected.
    fn read<M: Meter>(&mut self, lens: &Lens<M>, s: u32, i: usize, m: &mut M) -> Result<(), Memory>
        requires visited { lens.now.visited ≡ [] }
        requires found { FindsFrom lens.now s self.old i }
        requires more { i < length self.old.states }
        requires room { HasRoomFor (M.counted m.old) 0
            (length (row_of (slice_index self.old.states i) lens.now.l.places)) }
        ensures found { OnOk result (Continues lens.now s self.old self.new (i + 1)) }
        ensures err { OnErr result (FindsFrom lens.now s self.new i) }
        ensures visits { let t = slice_index self.old.states i in
            let row = length (row_of t lens.now.l.places) in
            Visits M.counted m.old m.new result row row }
    {
        lts::rows_follow();
        theory::inert_steps_stay();
        lens.invariants();
        let block = lens.blocks()[s as usize];
        let (start, end) = lens.row(self.states[i]);
        for k in start..end {
            let step = lens.step(block, k, m);
            self.explore(step)?;
        }
        Ok(())
    }

    /// Handles one outgoing transition of a state that the search has found. The argument `step` describes the
    /// transition. If the transition is inert, its target becomes a found state, too. Otherwise, the search collects
    /// the pair of the transition: its label ID, and the block ID of its target.
    fn explore(&mut self, step: Step) -> Result<(), Memory>
        requires { (t : ℕ) → step ≡ Inert t → t < length self.old.marked }
        ensures takes { OnOk result (ExploresStep step self.old self.new) }
        ensures err { OnErr result (self.new ≡ self.old) }
    {
        match step {
            Step::Inert(t) => self.reach(t)?,
            Step::Shows(label, block) => self.pairs.push((label, block))?,
        }
        Ok(())
    }

    /// Marks the state `t` and appends it to the list of found states. If the search has found `t` before, the call
    /// does nothing.
    fn reach(&mut self, t: u32) -> Result<(), Memory>
        requires { t < length self.old.marked }
        ensures reaches { OnOk result (Reaches t self.old self.new) }
        ensures err { OnErr result (self.new ≡ self.old) }
    {
        if self.marked[t as usize] {
            return Ok(());
        }
        self.states.push(t)?;
        self.marked[t as usize] = true;
        Ok(())
    }
}

/// Clears the marks of all states in the list `states`. These states must be exactly the marked states.
fn unmark(marked: &mut Vec<bool>, states: &[u32])
    requires { AreMarked marked.old.items states.now }
    ensures none { IsUnmarked marked.new.items }
    ensures size { length marked.new.items ≡ length marked.old.items }
{
    for s in states {
        marked[*s as usize] = false;
    }
}
