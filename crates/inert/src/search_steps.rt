//! The moves of the depth-first search along inert transitions. The search reads the outgoing transitions of each
//! active state (each state that the round processes) once.
ghost use Rattle.std.specs.Prelude.{◌≡◌, ◌+◌, ◌-◌, ◌<◌, ◌≤◌, length, take, drop, IfOk, OnOk};
ghost use Rattle.lts.specs.Meter.{Counts, HasRoomFor, Costs};
ghost use Rattle.inert.specs.Search.{stage_at, IsFinished, AreOpen, AreInternedItems};
ghost use Rattle.inert.specs.Search.{SearchInvariant, Unvisited};
ghost use Rattle.inert.specs.SearchMoves.{Closes, ahead, steps, HasRead, GoesOn, MakesProgress, IsAtRest};
ghost use Rattle.inert.specs.SearchMoves.{ReturnsToRest, IsUnionOfItems};

use crate::component::intern_items;
use crate::depth_first_search::{DepthFirstSearch, Root, VisitState};
use crate::item::{CompactItem, Item};
use crate::lens::Lens;
use lts::{Memory, Meter};
use signatures::Interner;

impl DepthFirstSearch {
    /// Runs the search from the unvisited state `s`. Afterwards `s` and all states that the search has reached from `s`
    /// are completed.
    pub fn finish<M: Meter>(
        &mut self,
        lens: &Lens<M>,
        s: u32,
        signatures: &mut Interner,
        m: &mut M,
    ) -> Result<(), Memory>
        requires state { (s < lens.now.l.states) × (stage_at self.old.stages s ≡ Unvisited) }
        requires rests { IsAtRest lens.now signatures.old self.old }
        requires room { HasRoomFor (M.counted m.old) 0 (ahead lens.now self.old) }
        ensures rests { OnOk result (ReturnsToRest lens.now signatures.old signatures.new
            (M.counted m.old) (M.counted m.new) self.old self.new) }
        ensures finished { OnOk result (IsFinished self.new.stages s) }
        ensures cost { Costs (M.counted m.old) (M.counted m.new) 0 0 (ahead lens.now self.old) }
    {
        self.begin(lens, s, signatures, m)?;
        while !self.frames.is_empty() {
            if self.read(lens, signatures, m)? {
                continue;
            }
            self.go_back(lens, signatures)?;
        }
        Ok(())
    }

    /// Begins a search at the unvisited state `s`. At first, the outgoing transitions of `s` are read without pushing
    /// `s` on the stack. Suppose that an inert transition of `s` leads to a state that is not completed. Then `s` is
    /// pushed on the stack and gets a frame, which records the transitions of `s` that are still to be read. The search
    /// then follows the inert transition. If no inert transition of `s` leads to such a state, `s` is completed as soon
    /// as all of its transitions were read.
    fn begin<M: Meter>(
        &mut self,
        lens: &Lens<M>,
        s: u32,
        signatures: &mut Interner,
        m: &mut M,
    ) -> Result<(), Memory>
        requires state { (s < lens.now.l.states) × (stage_at self.old.stages s ≡ Unvisited) }
        requires rests { IsAtRest lens.now signatures.old self.old }
        requires room { HasRoomFor (M.counted m.old) 0 (ahead lens.now self.old) }
        ensures on { OnOk result (GoesOn lens.now signatures.old signatures.new
            (M.counted m.old) (M.counted m.new) self.old self.new) }
        ensures found { OnOk result (¬ (stage_at self.new.stages s ≡ Unvisited)) }
        ensures cost { Costs (M.counted m.old) (M.counted m.new) 0 0 (ahead lens.now self.old) }
    {
        lens.invariants();
        let (start, end) = lens.row(s);
        let own = lens.blocks()[s as usize];
        for k in start..end {
            let step = lens.step(own, k, m);
            if self.leads_on(step) {
                self.push_state(s, k + 1, end, 0)?;
                self.handle_step(lens, step)?;
                return Ok(());
            }
            self.handle_step(lens, step)?;
        }
        let id = self.intern_from(0, signatures)?;
        self.stages[s as usize] = VisitState::Completed(id);
        Ok(())
    }

    /// Continues to read the outgoing transitions of the current state of the search, which is the state to which the
    /// last frame belongs. A frame records which transitions of its state are still to be read. If an inert transition
    /// leads to an unvisited state, this unvisited state is pushed, and reading stops. Otherwise, reading stops after
    /// the last transition. Returns whether a state was pushed.
    fn read<M: Meter>(
        &mut self,
        lens: &Lens<M>,
        signatures: &Interner,
        m: &mut M,
    ) -> Result<bool, Memory>
        requires walks { SearchInvariant lens.now signatures.now self.old }
        requires some { 0 < length self.old.frames }
        requires room { HasRoomFor (M.counted m.old) 0 (ahead lens.now self.old) }
        ensures on { OnOk result (GoesOn lens.now signatures.now signatures.now
            (M.counted m.old) (M.counted m.new) self.old self.new) }
        ensures steps { IfOk result (MakesProgress self.old self.new) }
        ensures cost { Costs (M.counted m.old) (M.counted m.new) 0 0 (ahead lens.now self.old) }
    {
        lens.invariants();
        let blocks = lens.blocks();
        let frame = self.top_frame();
        let last = self.frames.len() - 1;
        let block = blocks[self.stack[frame.height as usize] as usize];
        for k in frame.next..frame.end {
            let step = lens.step(block, k, m);
            self.frames[last].next = k + 1;
            if self.handle_step(lens, step)? {
                return Ok(true);
            }
        }
        Ok(false)
    }

    /// Each frame belongs to a state on the stack, and records which outgoing transitions of this state are still to be
    /// read. The function pops the last frame after all outgoing transitions of its state were read. If this state is
    /// the first state of a component, which is a strongly connected set of states on the stack, the component is
    /// completed. The function reads no transition. So the clause `on` holds for any counts of a meter, with the same
    /// counts before and after the call: the number of visits that the search still has to make does not change.
    fn go_back<M: Meter>(&mut self, lens: &Lens<M>, signatures: &mut Interner) -> Result<(), Memory>
        requires walks { SearchInvariant lens.now signatures.old self.old }
        requires some { 0 < length self.old.frames }
        requires read { HasRead self.old }
        ensures on { OnOk result ((counts : Counts) →
            GoesOn lens.now signatures.old signatures.new counts counts self.old self.new) }
        ensures back { OnOk result (steps self.new < steps self.old) }
    {
        lens.invariants();
        let frame = self.top_frame();
        let root = self.roots[self.roots.len() - 1];
        self.frames.pop();
        if root.height == frame.height {
            self.close(root, signatures)?;
        }
        Ok(())
    }

    /// Completes the component at the top of the stack. A component is a strongly connected set of states on the stack,
    /// and the argument `root` is the first state of this component. The function interns the signature of the
    /// component, marks the states of the component as completed, and removes these states from the stack. If the
    /// search came to the component from another component, that other component collects the ID of the signature.
    fn close(&mut self, root: Root, signatures: &mut Interner) -> Result<(), Memory>
        requires open { AreOpen self.old.stages self.old.stack }
        requires height { root.height ≤ length self.old.stack }
        requires items { root.items ≤ length self.old.items }
        requires there { AreInternedItems signatures.old self.old.items }
        ensures { OnOk result (Closes root signatures.old signatures.new self.old self.new) }
    {
        let id = self.intern_from(root.items, signatures)?;
        let (stages, stack) = (&mut self.stages, &self.stack);
        for p in root.height as usize..stack.len() {
            stages[stack[p] as usize] = VisitState::Completed(id);
        }
        self.stack.truncate(root.height as usize);
        self.roots.pop();
        if !self.frames.is_empty() {
            self.items.push(CompactItem::new(Item::Interned(id)))?;
        }
        Ok(())
    }

    /// An item is a pair (label ID, target block) or a signature ID. A signature ID represents all pairs of the
    /// signature with this ID. The function takes the items from the index `first` on. All pairs that these items
    /// represent form one signature. The function interns this signature, removes the items, and returns the ID of the
    /// signature.
    #[inline(always)]
    fn intern_from(&mut self, first: usize, signatures: &mut Interner) -> Result<u32, Memory>
        requires first { first ≤ length self.old.items }
        requires there { AreInternedItems signatures.old self.old.items }
        ensures union { IfOk result
            (IsUnionOfItems (drop first self.old.items) signatures.old signatures.new) }
        ensures others { OnOk result
            (self.new ≡ record self.old { items = take first self.old.items }) }
    {
        let id = intern_items(
            &self.items[first..],
            signatures,
            &mut self.signature_ids,
            &mut self.pairs,
        )?;
        self.items.truncate(first);
        Ok(id)
    }
}
