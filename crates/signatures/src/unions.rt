//! Makes new bases, which are lists of pairs that other lists can share. The bases are stored in a separate store,
//! which is called the trie. A base is made from pairs, from a list and pairs, or from two lists. A long list is stored
//! as two halves, and is divided into these halves at a number, which is called the split point of the list. To compare
//! a pair (x, y) with the split point, the pair is represented by the number x * 2^32 + y. The first half contains the
//! pairs that are less than the split point, and the second half contains the other pairs.
ghost use Rattle.std.specs.Prelude.{◌≡◌, ℕ, ◌<◌, ◌≤◌, List, length, IfOk};
ghost use Rattle.signatures.specs.declared.nodes.TheConstants.{MOST_WHOLE};
ghost use Rattle.std.specs.List.Sorted.{IsStrictlySortedBy};
ghost use Rattle.signatures.specs.Lists.{pair_cmp, list_at, Grow};
ghost use Rattle.signatures.specs.Cuts.{Fit, IsAlike};
ghost use Rattle.signatures.specs.Nodes.{AreStored, IsHalved};
ghost use Rattle.signatures.specs.Unions.{Unites, IsUnion, IsSplit, AreSplit, IsSplitWith};

use crate::cut::{cut, key, parted};
use crate::nodes::{Halves, MOST_WHOLE, Shape};
use crate::sorted_lists::append_merged;
use crate::trie::Trie;
use buckets::EMPTY;
use memory::Memory;

/// The trie, which interns the bases (lists of pairs that other lists can share), and working memory for merging and
/// sorting.
#[derive(Drop)]
pub(crate) struct Bases {
    pub trie: Trie,
    pub held: Vec<(u32, u32)>,
    pub merged: Vec<(u32, u32)>,
    /// The marks (bits) by which pairs are sorted.
    pub marks: Vec<u64>,
}

impl Bases {
    /// Computes the union of the lists with the IDs `j` and `k`, and returns the ID of the union. If the two lists are
    /// not equal and each of them is stored as two halves, the call first looks up their union in the union cache,
    /// which is a hash table of unions that were computed before. If the cache does not contain their union, the call
    /// computes the union and stores it in the cache.
    pub fn both(&mut self, j: u32, k: u32) -> Result<u32, Memory>
        requires first { j < length self.old.trie }
        requires second { k < length self.old.trie }
        ensures union { IfOk result (IsUnion self.new.trie (j, k)) }
        ensures grow { Grow self.old.trie self.new.trie }
    {
        self.trie.invariants();
        if j == k || j == EMPTY || k == EMPTY {
            return Ok(j.max(k));
        }
        let Shape::Halved(first) = self.trie.shape(j) else {
            return self.with_list(j, k);
        };
        let Shape::Halved(second) = self.trie.shape(k) else {
            return self.with_list(k, j);
        };
        if let Some(i) = self.trie.cached_union(j, k) {
            return Ok(i);
        }
        let Pieces { cut, below, above } = pieces_of_both(j, first, k, second);
        let below = self.both(below.0, below.1)?;
        let above = self.both(above.0, above.1)?;
        let halves = Shape::Halved(Halves { below, above, cut });
        let i = self.trie.intern(halves)?;
        self.trie.cache_union(j, k, i)?;
        Ok(i)
    }

    /// Computes the union of the lists with the IDs `few` and `k`, and returns the ID of the union. The list with the
    /// ID `few` must have at most 64 pairs (`MOST_WHOLE`). The call reads all pairs of this list.
    fn with_list(&mut self, few: u32, k: u32) -> Result<u32, Memory>
        requires few { few < length self.old.trie }
        requires short { length (list_at self.old.trie few) ≤ MOST_WHOLE }
        requires list { k < length self.old.trie }
        ensures union { IfOk result (IsUnion self.new.trie (few, k)) }
        ensures grow { Grow self.old.trie self.new.trie }
    {
        self.trie.invariants();
        let Shape::Whole(list) = self.trie.shape(few) else {
            return Ok(k);
        };
        self.held.clear();
        self.held.extend_from_slice(list)?;
        with(&mut self.trie, &mut self.merged, k, &self.held)
    }
}

/// Interns the list `pairs` in the trie, which stores lists of pairs that other lists can share, and returns the ID of
/// the list. The pairs must be in strictly ascending order.
pub(crate) fn list_of(trie: &mut Trie, pairs: &[(u32, u32)]) -> Result<u32, Memory>
    requires ascending { IsStrictlySortedBy pair_cmp pairs.now }
    requires fit { Fit pairs.now }
    ensures within { IfOk result (λ k. k < length trie.new) }
    ensures list { IfOk result (λ k. list_at trie.new k ≡ pairs.now) }
    ensures grow { Grow trie.old trie.new }
{
    trie.invariants();
    if pairs.is_empty() {
        return Ok(EMPTY);
    }
    if pairs.len() <= MOST_WHOLE {
        return trie.intern(Shape::Whole(pairs));
    }
    let cut = cut(key(pairs[0]), key(pairs[pairs.len() - 1]));
    let (first, second) = parted(pairs, cut);
    let below = list_of(trie, first)?;
    let above = list_of(trie, second)?;
    trie.intern(Shape::Halved(Halves { below, above, cut }))
}

/// Divides the list with the ID `k` into two parts at the number `cut`, and returns the IDs of the two parts. To
/// compare a pair (x, y) with `cut`, the pair is represented by the number x * 2^32 + y. The first part contains the
/// pairs that are less than `cut`, and the second part contains the pairs that are at least `cut`. The argument
/// `halves` contains the IDs of the two halves of the list, and the split point of the list, which is the number at
/// which the list is divided into these halves. If `cut` is the split point, the two parts are the two halves.
/// Otherwise, one part is the whole list, and the other part is the empty list. This result is correct only if `cut` is
/// a multiple of some power of two, 2^bit, and if all pairs of the list have the same bits as `cut` above the position
/// `bit` (`IsAlike`).
fn split(k: u32, halves: Halves, cut: u64) -> (u32, u32)
    ensures { (lists : List (List (ℕ × ℕ))) → AreStored lists → IsHalved lists k halves
        → (bit : ℕ) → IsAlike bit (list_at lists k) cut → IsSplit lists k cut result.0 result.1 }
{
    if halves.cut < cut {
        return (k, EMPTY);
    }
    if cut < halves.cut {
        return (EMPTY, k);
    }
    (halves.below, halves.above)
}

/// Two lists, each of which is divided into two parts at the number `cut`. The union of the two lists is divided into
/// two halves at the same number. For each of the two lists, the field `below` contains the part with the pairs whose
/// numbers (`key`) are less than `cut`, and the field `above` contains the part with the other pairs.
#[derive(Clone, Copy)]
struct Pieces<T> {
    cut: u64,
    below: (u32, T),
    above: (u32, T),
}

/// Divides two lists, which are the list with the ID `k` and the list `pairs`, into two parts each. Both lists are
/// divided at the number at which their union is divided into two halves. The first part of each list contains the
/// pairs whose numbers (`key`) are less than this number, and the second part contains the other pairs. The argument
/// `halves` contains the IDs of the two halves of the list with the ID `k`, and the number at which this list is
/// divided into these halves.
fn pieces_with_pairs(k: u32, halves: Halves, pairs: &[(u32, u32)]) -> Pieces<&[(u32, u32)]>
    requires some { 0 < length pairs.now }
    requires cut { 0 < halves.cut }
    requires ascending { IsStrictlySortedBy pair_cmp pairs.now }
    requires fit { Fit pairs.now }
    ensures { (lists : List (List (ℕ × ℕ))) → AreStored lists → IsHalved lists k halves
        → IsSplitWith lists k pairs.now result.cut (result.below.0, result.below.1.now)
        (result.above.0, result.above.1.now) }
{
    let low = key(pairs[0]).min(halves.cut - 1);
    let high = key(pairs[pairs.len() - 1]).max(halves.cut);
    let cut = cut(low, high);
    let (below, above) = split(k, halves, cut);
    let (few, more) = parted(pairs, cut);
    Pieces {
        cut,
        below: (below, few),
        above: (above, more),
    }
}

/// Computes the union of the list with the ID `k` and the list `pairs`, and returns the ID of the union. The vector
/// `merged` is working memory for merges.
pub(crate) fn with(
    trie: &mut Trie,
    merged: &mut Vec<(u32, u32)>,
    k: u32,
    pairs: &[(u32, u32)],
) -> Result<u32, Memory>
    requires list { k < length trie.old }
    requires ascending { IsStrictlySortedBy pair_cmp pairs.now }
    requires fit { Fit pairs.now }
    ensures within { IfOk result (λ i. i < length trie.new) }
    ensures exactly { IfOk result
        (λ i. Unites (list_at trie.new i) pairs.now (list_at trie.old k)) }
    ensures grow { Grow trie.old trie.new }
{
    trie.invariants();
    if pairs.is_empty() {
        return Ok(k);
    }
    if k == EMPTY {
        return list_of(trie, pairs);
    }
    match trie.shape(k) {
        Shape::Whole(list) => {
            merged.clear();
            append_merged(list, pairs, merged)?;
            list_of(trie, merged)
        }
        Shape::Halved(halves) => {
            let Pieces { cut, below, above } = pieces_with_pairs(k, halves, pairs);
            let below = with(trie, merged, below.0, below.1)?;
            let above = with(trie, merged, above.0, above.1)?;
            trie.intern(Shape::Halved(Halves { below, above, cut }))
        }
    }
}

/// Divides the lists with the IDs `j` and `k` into two parts each. Both lists are divided at the number at which their
/// union is divided into two halves. The first part of each list contains the pairs whose numbers (`key`) are less than
/// this number, and the second part contains the other pairs. The argument `first` contains the IDs of the two halves
/// of the list with the ID `j`, and the number at which this list is divided into these halves. The argument `second`
/// contains the same data for the list with the ID `k`.
fn pieces_of_both(j: u32, first: Halves, k: u32, second: Halves) -> Pieces<u32>
    requires first { 0 < first.cut }
    requires second { 0 < second.cut }
    ensures { (lists : List (List (ℕ × ℕ))) → AreStored lists → IsHalved lists j first →
        IsHalved lists k second
        → AreSplit lists (j, k) result.cut result.below result.above }
{
    let cut = cut(first.cut.min(second.cut) - 1, first.cut.max(second.cut));
    let (below, above) = split(j, first, cut);
    let (under, over) = split(k, second, cut);
    Pieces {
        cut,
        below: (below, under),
        above: (above, over),
    }
}
