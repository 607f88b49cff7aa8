//! The set of transitions that were visited in a round. A visit is a read of a transition that the meter counts. A
//! round may need a transition twice: first to find its source, and then to read its target. Only the first read counts
//! as a visit.
ghost use Rattle.std.specs.Prelude.{◌≡◌, ◌↔◌, ℕ, ◌^◌, ◌<◌, ◌≤◌, ◌++◌, ◌∷◌, [], true, length, slice_index_or};
ghost use Rattle.std.specs.Prelude.{IsTrue, OnOk, IfOk, Contains};
ghost use Rattle.std.specs.List.{range_with_len};
ghost use Rattle.lts.specs.Lts.{label_of, target_of, place_at};
ghost use Rattle.lts.specs.Meter.{HasRoomFor, Costs};
ghost use Rattle.lts.specs.Visited.{HaveBits, is_visited, price};

use crate::lts::Lts;
use crate::meter::Meter;
use memory::Memory;
use std::alloc::Global;
use std::marker::Model;

/// The number of bits in each word of the bit set.
const BITS: u32 = 64;

/// The set of the places (indices) of the transitions that were visited in a round. A visit is a read that the meter
/// counts. Only a visit adds a place to the set. If the place of a transition is in the set, the meter does not count
/// further reads of this transition.
pub struct Visited {
    /// All transitions at places (indices) less than `below` were visited.
    below: u32,
    /// The places (indices) of the visited transitions that are not less than `below`, in the order in which these
    /// transitions were visited.
    places: Vec<u32>,
    /// A bit set, with one bit for each place (index of a transition). The lowest bit of the first word belongs to the
    /// place 0. The bit of a place is set if and only if the place is in `places`. If a place is beyond the last word,
    /// it is not in `places`.
    words: Vec<u64>,
}

/// `Drop` is implemented explicitly to make proofs faster: see the row "Drops" of the table in `docs/changing.md`.
impl Drop for Visited {
    fn drop(self) {
        let Visited {
            below: _,
            places: _,
            words: _,
        } = self;
    }
}

impl Model for Visited {
    ghost use Rattle.std.specs.Prelude.{List, ◌++◌, ℕ};
    ghost use Rattle.std.specs.List.{range_with_len};
    ghost use Rattle.lts.specs.Visited.{HaveBits};

    ghost Value = { List ℕ };

    ghost view = { λ x. range_with_len 0 x.below ++ x.places.items };

    ghost invariant = { λ x. HaveBits x.places.items x.words.items };
}

impl Visited {
    /// Returns the empty set.
    pub fn new(alloc: Global) -> Visited
        ensures { result ≡ [] }
    {
        Visited {
            below: 0,
            places: Vec::new(alloc),
            words: Vec::new(alloc),
        }
    }

    /// Returns the set of all places (indices of transitions) less than `places`. The caller must have visited the
    /// transition at each of these places.
    pub(crate) fn up_to(alloc: Global, places: u32) -> Result<Visited, Memory>
        ensures { IfOk result (λ x. x ≡ range_with_len 0 places) }
    {
        Ok(Visited {
            below: places,
            places: Vec::new(alloc),
            words: vec![in alloc; 0; (places / BITS + 1) as usize]?,
        })
    }

    /// Returns whether the set of visited transitions is empty.
    pub fn is_empty(&self) -> bool
        ensures { IsTrue result ↔ (self.now ≡ []) }
    {
        self.below == 0 && self.places.is_empty()
    }

    /// Empties the set at the end of a round. The memory of the set is not freed, so that later rounds can use it
    /// again.
    pub fn clear(&mut self)
        ensures { self.new ≡ [] }
    {
        self.below = 0;
        clear_bits(&mut self.words, &self.places);
        self.places.clear();
    }

    /// Visits the transition at the place (index) `k`: reads the transition, counts this read on the meter `m`, and
    /// adds `k` to the set. If `Visited::edge` reads this transition later in the round, the meter does not count that
    /// read.
    #[inline(always)]
    pub fn visit<M: Meter>(&mut self, l: &Lts<M>, k: u32, m: &mut M) -> Result<(), Memory>
        requires place { k < length l.now.places }
        requires new { ¬ Contains self.old k }
        requires room { HasRoomFor (M.counted m.old) 0 1 }
        ensures visited { OnOk result (self.new ≡ self.old ++ k ∷ []) }
        ensures visit { Costs (M.counted m.old) (M.counted m.new) 0 1 1 }
    {
        let _ = l.edge(k, m);
        let word = (k / BITS) as usize;
        if word >= self.words.len() {
            widen(&mut self.words, word)?;
        }
        self.places.push(k)?;
        self.words[word] |= 1u64 << (k % BITS);
        Ok(())
    }

    /// Returns the label ID and the target of the transition at the place (index) `k`, as `Lts::edge` does. The meter
    /// `m` counts this read as one visit, unless `k` is in the set. The call does not add `k` to the set.
    #[inline(always)]
    pub fn edge<M: Meter>(&self, l: &Lts<M>, k: u32, m: &mut M) -> (u32, u32)
        requires place { k < length l.now.places }
        requires room { HasRoomFor (M.counted m.old) 0 (price self.now k) }

        ensures label { result.0 ≡ label_of (place_at l.now.places k) }
        ensures target { result.1 ≡ target_of (place_at l.now.places k) }

        ensures visit { Costs (M.counted m.old) (M.counted m.new) 0 (price self.now k)
            (price self.now k) }
    {
        // Reading a visited transition and visiting a transition are separate branches, so that the compiler can keep
        // the number of visits (reads that the meter counts) in a register.
        if self.has(k) {
            return self.read_again(l, k);
        }
        l.edge(k, m)
    }

    /// Returns the label ID and the target of the transition at the place (index) `k`, which must have been visited in
    /// this round. The meter does not count this read.
    #[inline(always)]
    pub(crate) fn read_again<M: Meter>(&self, l: &Lts<M>, k: u32) -> (u32, u32)
        requires place { k < length l.now.places }
        requires visited { is_visited self.now k ≡ true }
        ensures label { result.0 ≡ label_of (place_at l.now.places k) }
        ensures target { result.1 ≡ target_of (place_at l.now.places k) }
    {
        l.pairs()[k as usize]
    }

    #[inline(always)]
    fn has(&self, place: u32) -> bool
        ensures { result ≡ is_visited self.now place }
    {
        if place < self.below {
            return true;
        }
        let word = (place / BITS) as usize;
        word < self.words.len() && self.words[word] >> (place % BITS) & 1 == 1
    }
}

/// Appends zeros to `words` until `words` contains an element at the index `word`.
#[inline(never)]
fn widen(words: &mut Vec<u64>, word: usize) -> Result<(), Memory>
    requires { (length words.old.items ≤ word) × (word < 2 ^ 32) }
    ensures same { (k : ℕ) →
        slice_index_or words.new.items k 0 ≡ slice_index_or words.old.items k 0 }
    ensures wide { OnOk result (word < length words.new.items) }
{
    words.resize(word + 1, 0)?;
    Ok(())
}

/// The bit set assigns one bit to each place, which is the index of a transition. This function sets to zero each word
/// that contains the bit of a place in `places`. All other words must already be zero.
fn clear_bits(words: &mut [u64], places: &[u32])
    requires { HaveBits places.now words.old }
    ensures { HaveBits [] words.new }
{
    for i in 0..places.len() {
        words[(places[i] / BITS) as usize] = 0;
    }
}
