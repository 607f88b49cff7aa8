//! Finds the reachable states. The search marks each state that it finds, beginning with the first state of the system.
//! The search scans the states in ascending order. If a state is marked when the scan reaches it, the search reads the
//! transitions of this state and marks their targets. So the scan reads transitions in the order in which they are
//! stored. If the scan has already passed a state when this state is marked, the state is put into a queue. After the
//! scan, the search reads the transitions of the states in the queue.
ghost use Rattle.std.specs.Prelude.{◌≡◌, ◌↔◌, ℕ, ◌+◌, ◌<◌, ◌≤◌, ◌∷◌, length, IfOk, OnOk};
ghost use Rattle.theory.specs.System.{Reachable};
ghost use Rattle.lts.specs.Meter.{HasRoomFor, Costs};
ghost use Rattle.lts.specs.Lts.{row_of, system_of};
ghost use Rattle.quotient_core.specs.Numbers.{IsMarked};
ghost use Rattle.quotient_core.specs.Search.{MarksState, Searches, ReadsOnce, places_ahead};

use lts::{Lts, Memory, Meter};
use std::alloc::Global;
use std::collections::VecDeque;

/// Returns, for each state, whether the state is reachable from the first state of the system. The first state is
/// reachable from itself. The number of visits (reads of transitions that the meter counts) is at most the number of
/// transitions.
pub fn reachable<M: Meter>(alloc: Global, l: &Lts<M>, m: &mut M) -> Result<Vec<bool>, Memory>
    requires room { HasRoomFor (M.counted m.old) 0 (length l.now.places) }
    ensures states { IfOk result (λ r. length r.items ≡ l.now.states) }
    ensures exactly { IfOk result
        (λ r. (s : ℕ) → IsMarked r.items s ↔ Reachable (system_of l.now) s) }

    // Always
    ensures visits { Costs (M.counted m.old) (M.counted m.new) 0 0 (length l.now.places) }
{
    let mut search = Search::over_states(alloc, l, m)?;
    while let Some(s) = search.queue.pop_front() {
        search.mark_targets(l, s, l.states(), m)?;
    }
    Ok(search.marked)
}

/// The data of the search: the mark of each state, and a queue of states. Each marked state is reachable. The scan of
/// the search reads the transitions of each state that is marked when the scan reaches it. The queue contains the
/// states that were marked only after the scan had passed them, and whose transitions are still to be read.
#[derive(Drop)]
struct Search {
    marked: Vec<bool>,
    queue: VecDeque<u32>,
}

impl Search {
    /// Scans all states in ascending order, and reads the transitions of each state that is marked when the scan
    /// reaches it. Afterwards, the queue contains the marked states whose transitions are still to be read.
    fn over_states<M: Meter>(alloc: Global, l: &Lts<M>, m: &mut M) -> Result<Search, Memory>
        requires room { HasRoomFor (M.counted m.old) 0 (length l.now.places) }
        ensures reads { IfOk result (λ s. ReadsOnce l.now s.marked.items l.now.states s.queue.items
            (M.counted m.old) (M.counted m.new)) }

        // Always
        ensures visits { Costs (M.counted m.old) (M.counted m.new) 0 0 (length l.now.places) }
    {
        let mut search = Search {
            marked: vec![in alloc; false; l.states() as usize]?,
            queue: VecDeque::new(alloc),
        };
        search.marked[l.first() as usize] = true;
        for s in 0..l.states() {
            if !search.marked[s as usize] {
                continue;
            }
            search.mark_targets(l, s, s + 1, m)?;
        }
        Ok(search)
    }

    /// Marks the state `s`. If `s` is already marked, the call does nothing. The search scans the states in ascending
    /// order, and has already passed all states that are less than `next`. If the scan has already passed `s`, and `s`
    /// was not marked before, the call also puts `s` into the queue.
    fn mark(&mut self, s: u32, next: u32) -> Result<(), Memory>
        requires { s < length self.old.marked.items }
        ensures { OnOk result (MarksState s next self.old self.new) }
    {
        if self.marked[s as usize] {
            return Ok(());
        }
        self.marked[s as usize] = true;
        if s < next {
            self.queue.push_back(s)?;
        }
        Ok(())
    }

    /// Marks the targets of the transitions of the state `s`. The search scans the states in ascending order, and has
    /// already passed all states that are less than `next`.
    fn mark_targets<M: Meter>(
        &mut self,
        l: &Lts<M>,
        s: u32,
        next: u32,
        m: &mut M,
    ) -> Result<(), Memory>
        requires search { Searches l.now self.old.marked.items next (s ∷ self.old.queue.items) }
        requires room { HasRoomFor (M.counted m.old) 0 (length (row_of s l.now.places)) }
        ensures search { OnOk result
            (Searches l.now self.new.marked.items next self.new.queue.items) }
        ensures queue { OnOk result (length self.new.queue.items
            ≤ length self.old.queue.items + length (row_of s l.now.places)) }
        ensures places { let ahead = λ (s : Search). places_ahead l.now.places next s.marked.items
            s.queue.items in
            OnOk result (ahead self.new ≡ ahead self.old) }
        ensures visits { Costs (M.counted m.old) (M.counted m.new) 0 0
            (length (row_of s l.now.places)) }
    {
        l.invariants();
        let (start, end) = l.row(s);
        for k in start..end {
            let (_, target) = l.edge(k, m);
            self.mark(target, next)?;
        }
        Ok(())
    }
}
