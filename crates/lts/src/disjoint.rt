//! Computes the disjoint union of two systems.
ghost use Rattle.std.specs.Prelude.{◌≡◌, ◌↔◌, ℕ, ◌+◌, ◌<◌, ◌≤◌, length, IsTrue, IfOk, OnOk};
ghost use Rattle.theory.specs.System.{IsLabel};
ghost use Rattle.theory.specs.Union.{union_of};
ghost use Rattle.memory.specs.declared.limits.TheConstants.{MOST_LABELS};
ghost use Rattle.lts.specs.Labels.{IsLabelId, IsTable, Interns, KeepsLabels};
ghost use Rattle.lts.specs.Meter.{HasRoomFor, Visits};
ghost use Rattle.lts.specs.Lts.{system_of, IsUsedLabel};
ghost use Rattle.lts.specs.Union.{FitTogether, FitsBehind, IsJoined, AddsShifted};

use crate::labels::Labels;
use crate::lts::Lts;
use crate::meter::Meter;
use memory::{MOST_STATES, MOST_TRANSITIONS, Memory};
use std::alloc::Global;

/// Returns whether the disjoint union of the two systems stays within the limits for a system in memory.
pub fn fits_together<M: Meter>(a: &Lts<M>, b: &Lts<M>) -> bool
    ensures { IsTrue result ↔ FitTogether a.now b.now }
{
    a.states() + b.states() <= MOST_STATES && a.edges() + b.edges() <= MOST_TRANSITIONS
}

/// Builds the disjoint union of `a` and `b`. States are numbers: to keep the states of the two systems apart, the
/// number of states of `a` is added to each state of `b`. The first state of the union is the first state of `a`. A
/// label that occurs in both systems is stored only once. The label table of the union contains only labels of
/// transitions. The call makes one visit (a read that the meter counts) for each transition of both systems.
pub fn union<M: Meter>(alloc: Global, a: &Lts<M>, b: &Lts<M>, m: &mut M) -> Result<Lts<M>, Memory>
    requires fit { FitTogether a.now b.now }
    requires room { HasRoomFor (M.counted m.old) 0 (length a.now.places + length b.now.places) }

    // On success
    ensures system { IfOk result (λ u. system_of u ≡ union_of (system_of a.now) (system_of b.now)) }
    ensures labels { IfOk result (λ u. (k : ℕ) → k < length u.labels → IsUsedLabel u k) }

    // Always
    ensures visits { let n = length a.now.places + length b.now.places in
        Visits M.counted m.old m.new result n n }
{
    let mut guesses = Vec::new(alloc);
    guesses.resize(a.labels().len().max(b.labels().len()) as usize, 0)?;
    let mut joined = Joined {
        labels: Labels::new(alloc),
        triples: Vec::with_capacity(alloc, (a.edges() + b.edges()) as usize)?,
    };
    joined.append(&Part { l: a, shift: 0 }, &mut guesses, m)?;
    let shift = a.states();
    joined.append(&Part { l: b, shift }, &mut guesses, m)?;
    let Joined { labels, triples } = joined;
    Lts::build(alloc, labels, a.first(), a.states() + b.states(), triples)
}

/// One of the two systems of a disjoint union, and the number (`shift`) that is added to each of its states.
#[derive(Drop)]
struct Part<'a, M: Meter> {
    l: &'a Lts<M>,
    shift: u32,
}

/// The part of the union that is already built: its transitions as triples, and a table of the labels of these
/// transitions.
#[derive(Drop)]
struct Joined {
    labels: Labels,
    triples: Vec<(u32, u32, u32)>,
}

impl Joined {
    /// Appends the transitions of one of the two systems to the union. The list `guesses` contains one ID for each
    /// label of this system. The ID is a guess: the label may have this ID in the label table of the union.
    fn append<M: Meter>(
        &mut self,
        part: &Part<M>,
        guesses: &mut [u32],
        m: &mut M,
    ) -> Result<(), Memory>
        requires fits { FitsBehind part.now.shift (length self.old.triples.items) part.now.l.now }
        requires joined { IsJoined self.old.labels part.now.shift self.old.triples.items }
        requires guesses { length part.now.l.now.labels ≤ length guesses.old }
        requires room { HasRoomFor (M.counted m.old) 0 (length part.now.l.now.places) }

        // On success
        ensures joined { OnOk result
            (IsJoined self.new.labels (part.now.shift + part.now.l.now.states)
            self.new.triples.items) }
        ensures added { let all = (system_of part.now.l.now).transitions in
            OnOk result (AddsShifted part.now.shift all self.old.labels self.old.triples.items
            self.new.labels self.new.triples.items) }

        // Always
        ensures visits { let n = length part.now.l.now.places in
            Visits M.counted m.old m.new result n n }
    {
        let Part { l, shift } = part;
        l.invariants();
        for state in 0..l.states() {
            let (start, end) = l.row(state);
            for k in start..end {
                let (label, target) = l.edge(k, m);
                let number = label_id(&mut self.labels, guesses, l.labels().text(label), label)?;
                self.triples.push((shift + state, number, shift + target))?;
            }
        }
        Ok(())
    }
}

/// Returns the ID of `label` in the label table of the union. If the table does not contain `label`, the label is
/// appended. The number `there` is the ID of `label` in the label table of the system that the label comes from. The
/// list `guesses` contains, at the index `there`, the ID that `label` may have in the union. If `label` has this ID,
/// the table need not be searched.
fn label_id(
    labels: &mut Labels,
    guesses: &mut [u32],
    label: &[u8],
    there: u32,
) -> Result<u32, Memory>
    requires label { IsLabel label.now }
    requires room { length labels.old < MOST_LABELS }
    requires there { there < length guesses.old }

    // On success
    ensures number { IfOk result (λ k. IsLabelId labels.new k label.now) }
    ensures table { OnOk result (Interns labels.old label.now labels.new) }

    // Always
    ensures keeps { KeepsLabels labels.old labels.new }
    ensures is_table { IsTable labels.new }
{
    let guess = guesses[there as usize];
    if labels.has(guess, label) {
        return Ok(guess);
    }
    let number = labels.intern(label)?;
    guesses[there as usize] = number;
    Ok(number)
}
