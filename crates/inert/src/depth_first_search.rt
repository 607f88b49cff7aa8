//! A depth-first search along inert transitions. It is Gabow's algorithm for strongly connected components (2000). The
//! stack of the search is divided into components. A component is a set of states that can reach each other along inert
//! transitions. Inert transitions can also lead from a component to further states. The component stays on the stack
//! until all these further states are completed.
ghost use Rattle.std.specs.Prelude.{◌≡◌, ◌↔◌, ℕ, ◌<◌, ◌≤◌, [], length, IsTrue, IfOk, OnOk};
ghost use Rattle.std.specs.List.{All};
ghost use Rattle.memory.specs.declared.limits.TheConstants.{MOST_STATES};
ghost use Rattle.partition.specs.Blocks.{AreActive};
ghost use Rattle.inert.specs.Search.{Search, stage_at, nothing, top, HasEnded, AreMarkedUnvisited, Unvisited};
ghost use Rattle.inert.specs.Search.{Completed, Pair};
ghost use Rattle.inert.specs.SearchMoves.{with_pushed, LeadsOn, HandlesStep, CutsRoots, Inert, Shows};
ghost use Rattle.inert.specs.declared.item.TheConstants.{INTERNED};

use crate::item::{CompactItem, Item};
use crate::lens::{Lens, Step};
use lts::{Memory, Meter};
use signatures::EMPTY;
use std::alloc::Global;
use std::marker::Model;

/// The status of a state in the search: the state is unvisited, on the stack, or completed.
#[derive(Clone, Copy)]
pub(crate) enum VisitState {
    Unvisited,
    /// The state is on the stack, and the field is its index on the stack (its height).
    OnStack(u32),
    /// The state is completed, and the field is the ID of its cached signature. This ID is correct, unless the state
    /// was completed before this round and all states of its block are completed. In that case the ID can be out of
    /// date.
    Completed(u32),
}

/// A frame belongs to a state on the stack, and records which outgoing transitions of this state are still to be read.
/// These transitions are at the indices `next..end` in the list of all transitions. The field `height` is the index of
/// the state on the stack.
#[derive(Clone, Copy)]
pub(crate) struct Frame {
    pub height: u32,
    pub next: u32,
    pub end: u32,
}

/// The stack is divided into components, which are strongly connected sets of states. Each component collects items:
/// pairs (label ID, target block) and signature IDs. The root of a component is its first state on the stack. The field
/// `height` is the index of this state on the stack. The field `items` is the index at which the items of the component
/// begin in the vector of all items.
#[derive(Clone, Copy)]
pub(crate) struct Root {
    pub height: u32,
    pub items: usize,
}

/// The data of a search. The vector `stages` contains the status of each state. Each frame belongs to a state on the
/// stack, and records which outgoing transitions of this state are still to be read. The stack is divided into
/// components, which are sets of states that can reach each other along inert transitions. The root of a component is
/// its first state on the stack. The items are the pairs (label ID, target block) and the signature IDs that the
/// components have collected.
pub(crate) struct DepthFirstSearch {
    pub stages: Vec<VisitState>,
    /// The stack: the states that were pushed and are not completed, in the order in which they were pushed.
    pub stack: Vec<u32>,
    /// Each frame belongs to a state on the stack, and records which outgoing transitions of this state are still to be
    /// read. The current state of the search is the state to which the last frame belongs.
    pub frames: Vec<Frame>,
    pub roots: Vec<Root>,
    pub items: Vec<CompactItem>,
    /// The vectors `signature_ids` and `pairs` are working memory for `intern_items`, which interns the signature of a
    /// strongly connected component. The component has collected items. The vector `pairs` is for the items that are
    /// pairs (label ID, target block), and the vector `signature_ids` is for the items that are signature IDs.
    pub signature_ids: Vec<u32>,
    pub pairs: Vec<(u32, u32)>,
}

/// `Drop` is implemented explicitly to make proofs faster: see the row "Drops" of the table in `docs/changing.md`.
impl Drop for DepthFirstSearch {
    fn drop(self) {
        let DepthFirstSearch {
            stages: _,
            stack: _,
            frames: _,
            roots: _,
            items: _,
            signature_ids: _,
            pairs: _,
        } = self;
    }
}

impl Model for DepthFirstSearch {
    ghost use Rattle.inert.specs.Search.{Search};

    ghost Value = { Search };

    ghost view = { λ w. record {
      stages = w.stages.items;
      stack = w.stack.items;
      frames = w.frames.items;
      roots = w.roots.items;
      items = w.items.items;
    } };
}

impl DepthFirstSearch {
    /// Returns the data of a search for a system without states. The search has not begun.
    pub fn new(alloc: Global) -> DepthFirstSearch
        ensures { result ≡ nothing [] }
    {
        DepthFirstSearch {
            stages: Vec::new(alloc),
            stack: Vec::new(alloc),
            frames: Vec::new(alloc),
            roots: Vec::new(alloc),
            items: Vec::new(alloc),
            signature_ids: Vec::new(alloc),
            pairs: Vec::new(alloc),
        }
    }

    /// Sets the number of states to `states`, and marks each state as completed, with the empty signature as its cached
    /// signature.
    pub fn finish_all(&mut self, alloc: Global, states: u32) -> Result<(), Memory>
        requires over { HasEnded self.old }
        ensures over { HasEnded self.new }
        ensures size { OnOk result (length self.new.stages ≡ states) }
        ensures empty { OnOk result (All (λ stage. stage ≡ Completed 0) self.new.stages) }
    {
        if self.stages.len() == states as usize {
            self.stages.fill(VisitState::Completed(EMPTY));
            return Ok(());
        }
        self.stages = vec![in alloc; VisitState::Completed(EMPTY); states as usize]?;
        Ok(())
    }

    /// Marks each active state (each state that the round processes) as unvisited.
    pub fn mark_unvisited(&mut self, active: &[u32])
        requires over { HasEnded self.old }
        requires active { AreActive (length self.old.stages) active.now }
        ensures { AreMarkedUnvisited self.old.stages active.now self.new }
    {
        let stages = &mut self.stages;
        for s in active {
            stages[*s as usize] = VisitState::Unvisited;
        }
    }

    /// Returns whether the state `s` is unvisited.
    pub fn is_unvisited(&self, s: u32) -> bool
        requires { s < length self.now.stages }
        ensures { IsTrue result ↔ (stage_at self.now.stages s ≡ Unvisited) }
    {
        match self.stages[s as usize] {
            VisitState::Unvisited => true,
            VisitState::OnStack(_) => false,
            VisitState::Completed(_) => false,
        }
    }

    /// Returns the signature ID that is cached for the state `s`, which must be completed.
    pub fn signature_id(&self, s: usize) -> u32
        requires state { s < length self.now.stages }
        requires finished { (k : ℕ) × (stage_at self.now.stages s ≡ Completed k) }
        ensures { stage_at self.now.stages s ≡ Completed result }
    {
        match self.stages[s] {
            VisitState::Completed(id) => id,
            VisitState::Unvisited => unreachable!(),
            VisitState::OnStack(_) => unreachable!(),
        }
    }

    /// Returns whether the transition `step` is inert and its target is unvisited or on the stack (not completed).
    #[inline(always)]
    pub fn leads_on(&self, step: Step) -> bool
        requires { (t : ℕ) → step ≡ Inert t → t < length self.now.stages }
        ensures { IsTrue result ↔ LeadsOn self.now.stages step }
    {
        match step {
            Step::Shows(_, _) => false,
            Step::Inert(t) => match self.stages[t as usize] {
                VisitState::Unvisited => true,
                VisitState::OnStack(_) => true,
                VisitState::Completed(_) => false,
            },
        }
    }

    /// Pushes the state `s` on the stack as a component of its own. A component is a strongly connected set of states
    /// on the stack, and its items are pairs (label ID, target block) and signature IDs. The items of the new component
    /// begin at the index `items` in the vector of all items. The transitions of `s` at the places (indices)
    /// `next..end` are still to be read. The frame of `s` records these places.
    #[inline(always)]
    pub fn push_state(&mut self, s: u32, next: u32, end: u32, items: usize) -> Result<(), Memory>
        requires state { s < length self.old.stages }
        requires heights { length self.old.stack ≤ MOST_STATES }
        ensures { OnOk result (self.new ≡ with_pushed s next end items self.old) }
    {
        let height = self.stack.len() as u32;
        self.roots.push(Root { height, items })?;
        self.frames.push(Frame { height, next, end })?;
        self.stack.push(s)?;
        self.stages[s as usize] = VisitState::OnStack(height);
        Ok(())
    }

    /// Processes one outgoing transition of the current state of the search. A component is a strongly connected set of
    /// states on the stack, and the component of the current state is at the top of the stack. If the transition is not
    /// inert, this component collects the pair (label ID, target block) of the transition. If the transition is inert,
    /// there are three cases for the status of its target. An unvisited target is pushed on the stack as a component of
    /// its own. If the target is on the stack, the component of the target and all components above it are merged. If
    /// the target is completed, the component of the current state collects the signature ID of the target. Returns
    /// whether a state was pushed. The function `begin` calls `handle_step` even if the stack is empty. The collected
    /// items then belong to the state at which the search begins.
    #[inline(always)]
    pub fn handle_step<M: Meter>(&mut self, lens: &Lens<M>, step: Step) -> Result<bool, Memory>
        requires state { (t : ℕ) → step ≡ Inert t → t < lens.now.l.states }
        requires label { (a b : ℕ) → step ≡ Shows a b → a < INTERNED }
        requires stages { length self.old.stages ≡ lens.now.l.states }
        requires heights { length self.old.stack ≤ MOST_STATES }
        ensures { IfOk result (HandlesStep lens.now.l.places step self.old self.new) }
    {
        match step {
            Step::Shows(label, block) => {
                self.items.push(CompactItem::new(Item::Pair(label, block)))?;
            }
            Step::Inert(t) => match self.stages[t as usize] {
                VisitState::Unvisited => {
                    let (next, end) = lens.row(t);
                    let items = self.items.len();
                    self.push_state(t, next, end, items)?;
                    return Ok(true);
                }
                VisitState::OnStack(height) => cut(&mut self.roots, height),
                VisitState::Completed(id) => {
                    self.items.push(CompactItem::new(Item::Interned(id)))?;
                }
            },
        }
        Ok(false)
    }

    /// Each frame belongs to a state on the stack, and records which outgoing transitions of this state are still to be
    /// read. Returns the last frame. The state to which the last frame belongs is the current state of the search.
    #[inline(always)]
    pub fn top_frame(&self) -> Frame
        requires { 0 < length self.now.frames }
        ensures { result ≡ top self.now.frames }
    {
        self.frames[self.frames.len() - 1]
    }
}

/// The stack is divided into components, which are strongly connected sets of states. The root of a component is its
/// first state on the stack. The vector `roots` must be in ascending order of the indices of the roots on the stack.
/// This function removes from the vector all roots whose index on the stack is greater than `height`.
fn cut(roots: &mut Vec<Root>, height: u32)
    ensures { CutsRoots height roots.old.items roots.new.items }
{
    let mut count = roots.len();
    while count > 0 && roots[count - 1].height > height {
        count -= 1;
    }
    roots.truncate(count);
}
