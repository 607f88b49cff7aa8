//! A list of transitions in ascending order of their sources. For each state, the list stores the end of its row, which
//! is the index after its last transition. For each transition, the list stores the label ID and the target. The source
//! of a transition is not stored, because it can be computed from the ends of the rows.
ghost use Rattle.std.specs.Prelude.{◌≡◌, ℕ, ◌-◌, ◌<◌, ◌≤◌, List, [], ◌∷◌, ◌++◌, length, map, replicate, vec_len};
ghost use Rattle.std.specs.Prelude.{vec_capacity, slice_index, IsTrue, IfOk, OnOk, OnErr, if◌then◌else◌, is_ok};
ghost use Rattle.std.specs.List.{All};
ghost use Rattle.memory.specs.declared.limits.TheConstants.{MOST_TRANSITIONS};
ghost use Rattle.lts.specs.Lts.{Triple, source_of, grouped};
ghost use Rattle.lts.specs.Rows.{pair_of, row_ends};

use std::alloc::{AllocError, Global};
use std::marker::Model;

/// If a vector of `len` items is full, its capacity grows by `len / GROWTH_DIVISOR + FIRST_CAPACITY` items, but not
/// beyond the limit that the caller gives.
const GROWTH_DIVISOR: usize = 2;

const FIRST_CAPACITY: usize = 1024;

pub(crate) struct Rows {
    /// The end of the row of a state is the index after its last transition. Let s be the source of the transition that
    /// was appended last. For each of the states 0 to s - 1, this vector contains the end of the row of the state. All
    /// transitions after these rows have the source s.
    ends: Vec<u32>,
    /// The label ID and the target of each transition.
    pairs: Vec<(u32, u32)>,
}

/// `Drop` is implemented explicitly to make proofs faster: see the row "Drops" of the table in `docs/changing.md`.
impl Drop for Rows {
    fn drop(self) {
        let Rows { ends: _, pairs: _ } = self;
    }
}

impl Model for Rows {
    ghost use Rattle.std.specs.Prelude.{List};
    ghost use Rattle.lts.specs.Lts.{Triple};

    ghost Value = { List Triple };

    ghost use Rattle.lts.specs.Rows.{in_rows, AreRows};

    ghost view = { λ r. in_rows r.ends.items r.pairs.items };

    ghost invariant = { λ r. AreRows (in_rows r.ends.items r.pairs.items)
        r.ends.items r.pairs.items };
}

impl Rows {
    /// Returns an empty list, which takes no memory.
    pub(crate) fn new(alloc: Global) -> Rows
        ensures { result ≡ [] }
    {
        Rows {
            ends: Vec::new(alloc),
            pairs: Vec::new(alloc),
        }
    }

    pub(crate) fn len(&self) -> usize
        ensures { result ≡ length self.now }
    {
        self.pairs.len()
    }

    /// If the source of the given transition is not less than the source of the last transition in the list, the call
    /// appends the transition and returns true. Otherwise the list does not change, and the result is false. The
    /// capacity of the list never grows beyond `most` transitions.
    #[inline(always)]
    pub(crate) fn push(
        &mut self,
        source: u32,
        label: u32,
        target: u32,
        most: u32,
    ) -> Result<bool, AllocError>
        requires { length self.old < most }
        ensures pushed { IfOk result
            (λ risen. IsTrue risen → self.new ≡ self.old ++ (source, label, target) ∷ []) }
        ensures fallen { IfOk result (λ risen. ¬ IsTrue risen → self.new ≡ self.old) }
        ensures refused { OnErr result (self.new ≡ self.old) }
    {
        if (source as usize) < self.ends.len() {
            return Ok(false);
        }
        make_room(&mut self.pairs, most as usize)?;
        end_rows(&mut self.ends, source as usize, self.pairs.len() as u32)?;
        self.pairs.push_reserved((label, target));
        Ok(true)
    }

    /// The function returns two lists. The first list contains, for each of the `states` states, the index after its
    /// last transition. The second list contains the label ID and target of each transition.
    pub(crate) fn finish(self, states: u32) -> Result<(Vec<u32>, Vec<(u32, u32)>), AllocError>
        requires few { length self ≤ MOST_TRANSITIONS }
        requires sources { All (λ x. source_of x < states) self }
        ensures ends { IfOk result (λ r. r.0.items ≡ row_ends states self) }
        ensures pairs { IfOk result (λ r. r.1.items ≡ map pair_of (grouped states self)) }
    {
        let Rows { mut ends, pairs } = self;
        ends.resize(states as usize, pairs.len() as u32)?;
        Ok((ends, pairs))
    }

    /// Returns all transitions as triples (source, label ID, target).
    pub(crate) fn triples(&self, alloc: Global) -> Result<Vec<(u32, u32, u32)>, AllocError>
        ensures { IfOk result (λ v. v.items ≡ self.now) }
    {
        let mut triples = Vec::with_capacity(alloc, self.pairs.len())?;
        let mut source = 0;
        for k in 0..self.pairs.len() {
            source = row_at(&self.ends, source, k);
            let (label, target) = self.pairs[k];
            triples.push_reserved((source as u32, label, target));
        }
        Ok(triples)
    }
}

/// The end of the row of a state is the index after its last transition. For each state before `source` whose row has
/// no end yet, this function sets the end to `end`.
#[inline(always)]
fn end_rows(ends: &mut Vec<u32>, source: usize, end: u32) -> Result<(), AllocError>
    requires { vec_len ends.old ≤ source }
    ensures { ends.new.items ≡ (if is_ok result then ends.old.items
        ++ replicate (source - vec_len ends.old) end else ends.old.items) }
{
    if ends.len() == source {
        return Ok(());
    }
    ends.resize(source, end)
}

/// The row of a state consists of its outgoing transitions. The list `ends` contains, for each state less than its
/// length, the index after the last transition of the row. For each state less than `from`, this index must be at most
/// `place`. Returns the first state that is at least `from` and whose index in `ends` is greater than `place`. The
/// transition at the index `place` is in the row of this state. If no index in `ends` is greater than `place`, the
/// result is the length of `ends`.
fn row_at(ends: &[u32], from: usize, place: usize) -> usize
    requires passed { (s : ℕ) → s < from → slice_index ends.now s ≤ place }
    requires within { from ≤ length ends.now }
    ensures passed { (s : ℕ) → s < result → slice_index ends.now s ≤ place }
    ensures here { result < length ends.now → place < slice_index ends.now result }
    ensures within { result ≤ length ends.now }
{
    for s in from..ends.len() {
        if place < ends[s] as usize {
            return s;
        }
    }
    ends.len()
}

/// Makes sure that the vector has capacity for at least one more item, but never increases the capacity beyond `most`
/// items.
pub(crate) fn make_room<T>(items: &mut Vec<T>, most: usize) -> Result<(), AllocError>
    requires { vec_len items.old < most }
    ensures items { items.new.items ≡ items.old.items }
    ensures len { vec_len items.new ≡ vec_len items.old }
    ensures room { OnOk result (vec_len items.new < vec_capacity items.new) }
{
    let len = items.len();
    if len < items.capacity() {
        return Ok(());
    }
    items.reserve_exact((len / GROWTH_DIVISOR + FIRST_CAPACITY).min(most - len))?;
    Ok(())
}
