//! A labelled transition system in memory. Its transitions are grouped by source, and the index of a transition in this
//! order is called its place. The function `edge` returns the transition at a given place, and a meter counts each call
//! of `edge` as a visit.
ghost use Rattle.std.specs.Prelude.{◌≡◌, ◌↔◌, ◌+◌, ◌^◌, ◌<◌, ◌≤◌, length, map, IsTrue, IfOk};
ghost use Rattle.lts.specs.Meter.{HasRoomFor, Costs};
ghost use Rattle.lts.specs.Lts.{label_of, target_of, place_at, IsBuilt, InRange, IsLts, IsRow};
ghost use Rattle.lts.specs.Rows.{pair_of};

use crate::grouping::between;
use crate::labels::Labels;
use crate::meter::Meter;
use crate::transitions::Transitions;
use memory::{MOST_STATES, MOST_TRANSITIONS, Memory};
use std::alloc::Global;
use std::marker::{Model, PhantomData};
use std::rc::Rc;

/// Returns whether a system with the label table `l`, the first state `first`, `states` states and the transitions `e`
/// can be stored. There may be at most `MOST_STATES` states and at most `MOST_TRANSITIONS` transitions. The first state
/// and the sources and targets of all transitions must be less than `states`. All label IDs must be less than the
/// number of labels in the label table.
pub fn in_range(l: &Labels, first: u32, states: u32, e: &[(u32, u32, u32)]) -> bool
    ensures { IsTrue result ↔ InRange (length l.now) first states e.now }
{
    let labels = l.len();
    first < states
        && states <= MOST_STATES
        && e.len() <= MOST_TRANSITIONS as usize
        && e.iter()
            .all(|x| x.0 < states && x.1 < labels && x.2 < states)
}

/// A labelled transition system in memory. A meter of the type `M` counts the reads of its transitions.
pub struct Lts<M: Meter> {
    /// The label table. Several systems can share one table.
    labels: Rc<Labels>,
    first: u32,
    states: u32,
    /// For each state, the index after its last transition. The transitions of a state begin where the transitions of
    /// the previous state end.
    ends: Vec<u32>,
    /// The label ID and the target of each transition, in the order of the transitions, which are grouped by source.
    pairs: Vec<(u32, u32)>,
    meter: PhantomData<M>,
}

/// `Drop` is implemented explicitly to make proofs faster: see the row "Drops" of the table in `docs/changing.md`.
impl<M: Meter> Drop for Lts<M> {
    fn drop(self) {
        let Lts {
            labels: _,
            first: _,
            states: _,
            ends: _,
            pairs: _,
            meter: _,
        } = self;
    }
}

impl<M: Meter> Model for Lts<M> {
    ghost use Rattle.lts.specs.Lts.{Grouped};

    ghost Value = { Grouped };

    ghost use Rattle.lts.specs.Rows.{laid_out, IsLaidOut};

    ghost view = { λ s. laid_out s.first s.states s.labels.value s.ends.items s.pairs.items };

    ghost invariant = { λ s. let ends = s.ends.items in let pairs = s.pairs.items in
        IsLaidOut (laid_out s.first s.states s.labels.value ends pairs) ends pairs };
}

impl<M: Meter> Lts<M> {
    /// Builds a system with the label table `l`, the first state `first`, `states` states and the transitions `e`. The
    /// transitions are given as triples (source, label ID, target), and are grouped by source.
    pub fn build(
        alloc: Global,
        l: Labels,
        first: u32,
        states: u32,
        e: Vec<(u32, u32, u32)>,
    ) -> Result<Lts<M>, Memory>
        requires { InRange (length l) first states e.items }
        ensures { IfOk result (IsBuilt first states l e.items) }
    {
        Lts::from_transitions(l, first, states, Transitions::from_triples(alloc, e))
    }

    /// Builds a system with the label table `l`, the first state `first`, `states` states and the transitions `e`. The
    /// transitions are grouped by source. If the transitions were appended to `e` in ascending order of their sources,
    /// they are not copied.
    pub fn from_transitions(
        l: Labels,
        first: u32,
        states: u32,
        e: Transitions,
    ) -> Result<Lts<M>, Memory>
        requires { InRange (length l) first states e }
        ensures { IfOk result (IsBuilt first states l e) }
    {
        let labels = Rc::new(l.allocator(), l)?;
        Lts::from_shared(labels, first, states, e)
    }

    /// Builds a system as `from_transitions` does, but with the label table of the system `other`. The two systems
    /// share this table, so it is not copied.
    pub fn with_labels_of<N: Meter>(
        other: &Lts<N>,
        first: u32,
        states: u32,
        e: Transitions,
    ) -> Result<Lts<M>, Memory>
        requires { InRange (length other.now.labels) first states e }
        ensures { IfOk result (IsBuilt first states other.now.labels e) }
    {
        let labels = other.labels.clone()?;
        Lts::from_shared(labels, first, states, e)
    }

    /// Builds a system as `from_transitions` does, but with a label table that several systems can share.
    fn from_shared(
        labels: Rc<Labels>,
        first: u32,
        states: u32,
        e: Transitions,
    ) -> Result<Lts<M>, Memory>
        requires { InRange (length labels.value) first states e }
        ensures { IfOk result (IsBuilt first states labels.value e) }
    {
        labels.as_ref().invariants();
        let (ends, pairs) = e.group(states)?;
        Ok(Lts {
            labels,
            first,
            states,
            ends,
            pairs,
            meter: PhantomData,
        })
    }

    /// This call is a lemma: it does nothing at run time. Its contract states the invariant of a system in memory.
    pub fn invariants(&self)
        ensures { IsLts self.now }
    {
        let _ = &self.ends;
    }

    /// Returns the number of states, which is from 1 to `MOST_STATES`.
    pub fn states(&self) -> u32
        ensures value { result ≡ self.now.states }
        ensures lts { IsLts self.now }
    {
        self.states
    }

    /// Returns the number of transitions, which is at most `MOST_TRANSITIONS`. If a transition occurs twice, it counts
    /// twice.
    pub fn edges(&self) -> u32
        ensures value { result ≡ length self.now.places }
        ensures lts { IsLts self.now }
    {
        self.pairs.len() as u32
    }

    /// Returns the first state of the system.
    pub fn first(&self) -> u32
        ensures { result ≡ self.now.first }
    {
        self.first
    }

    /// Returns the label table of the system.
    pub fn labels(&self) -> &Labels
        ensures { result.now ≡ self.now.labels }
    {
        self.labels.as_ref()
    }

    /// The place of a transition is its index in the list of all transitions. Returns the range of the places of the
    /// transitions with the source `s`. The first result is the first place of the range, and the second result is the
    /// first place after the range.
    pub fn row(&self, s: u32) -> (u32, u32)
        requires { s < self.now.states }
        ensures { IsRow self.now.places s result.0 result.1 }
    {
        between(&self.ends, s as usize, s as usize)
    }

    /// Returns the label ID and the target of each transition. A meter counts a call of `edge` as a visit of a
    /// transition, but does not count a call of `pairs`.
    pub(crate) fn pairs(&self) -> &[(u32, u32)]
        ensures { result.now ≡ map pair_of self.now.places }
    {
        &self.pairs
    }

    /// Returns the label ID and the target of the transition at the place `k`, which is its index in the list of all
    /// transitions. The meter `m` counts this read as one visit.
    pub fn edge(&self, k: u32, m: &mut M) -> (u32, u32)
        requires place { k < length self.now.places }
        requires room { HasRoomFor (M.counted m.old) 0 1 }

        ensures label { result.0 ≡ label_of (place_at self.now.places k) }
        ensures target { result.1 ≡ target_of (place_at self.now.places k) }

        ensures visit { Costs (M.counted m.old) (M.counted m.new) 0 1 1 }
    {
        m.visit();
        self.pairs[k as usize]
    }
}

/// A visit is a read of a transition that the meter counts. At the end of a round, this function makes further visits
/// until the number of visits in the round equals the number of transitions. The function ignores the results of these
/// visits. The argument `before` is the number of visits that the meter had counted before the round began.
pub fn visit_rest<M: Meter>(l: &Lts<M>, before: u128, m: &mut M)
    requires begun { before ≤ (M.counted m.old).visits }
    requires few { (M.counted m.old).visits ≤ before + length l.now.places }
    requires room { before + length l.now.places < 2 ^ 128 }
    requires rounds { (M.counted m.old).rounds < 2 ^ 128 }
    ensures rounds { (M.counted m.new).rounds ≡ (M.counted m.old).rounds }
    ensures visits { (M.counted m.new).visits ≡ before + length l.now.places }
{
    let edges = l.edges();
    let made = (m.visits() - before) as u32;
    for k in made..edges {
        l.edge(k, m);
    }
}
