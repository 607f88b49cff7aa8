//! Interns bases, which are lists of pairs that other lists can share. This module also owns the union cache, which is
//! a hash table of unions of bases that were computed before. The layer below this module is the module `nodes`, which
//! stores the lists.
ghost use Rattle.std.specs.Prelude.{◌≡◌, ◌↔◌, ℕ, ◌++◌, ◌∷◌, ◌<◌, List, [], length, IfOk, IfSome, OnOk, OnErr, IsTrue};
ghost use Rattle.std.specs.List.{Contains};
ghost use Rattle.std.specs.List.Sorted.{IsStrictlySortedBy};
ghost use Rattle.signatures.specs.Lists.{pair_cmp, list_at, merged, Grow};
ghost use Rattle.signatures.specs.Cuts.{Fit};
ghost use Rattle.signatures.specs.Nodes.{AreStored, IsShape, list_of_shape, Suits};
ghost use Rattle.signatures.specs.Hashed.{fingerprint_of, AreDifferent, IsNewList};
ghost use Rattle.signatures.specs.Unions.{IsUnion};

use crate::cut::{key, parted};
use crate::hashes::{fingerprint, mix};
use crate::nodes::{Nodes, Shape};
use crate::sorted_lists::{append_merged, has};
use crate::trie_lookup::find;
use crate::union_cache::UnionCache;
use buckets::Buckets;
use memory::Memory;
use std::alloc::Global;
use std::marker::Model;

/// Interned lists of pairs, each in strictly ascending order. The empty list has the ID `EMPTY`.
pub(crate) struct Trie {
    nodes: Nodes,
    /// The fingerprint (a hash of 64 bits) of each list.
    sums: Vec<u64>,
    /// The hash table, in which the ID of each list is stored under the tag (a hash of 32 bits) of the list.
    buckets: Buckets,
    union_cache: UnionCache,
}

/// `Drop` is implemented explicitly to make proofs faster: see the row "Drops" of the table in `docs/changing.md`.
impl Drop for Trie {
    fn drop(self) {
        let Trie {
            nodes: _,
            sums: _,
            buckets: _,
            union_cache: _,
        } = self;
    }
}

impl Model for Trie {
    ghost use Rattle.std.specs.Prelude.{ℕ, List};

    ghost Value = { List (List (ℕ × ℕ)) };

    ghost use Rattle.signatures.specs.Hashed.{IsHashed};
    ghost use Rattle.signatures.specs.Unions.{AreUnions};

    ghost view = { λ x. x.nodes };

    ghost invariant = { λ x. IsHashed x.nodes x.sums.items x.buckets.tags
        × AreUnions x.nodes x.union_cache };
}

impl Trie {
    /// Makes a trie (a store of lists) that contains only the empty list.
    pub fn new(alloc: Global) -> Result<Trie, Memory>
        ensures { IfOk result (λ x. x ≡ [] ∷ []) }
    {
        let mut sums = Vec::new(alloc);
        sums.push(0)?;
        Ok(Trie {
            nodes: Nodes::new(alloc)?,
            sums,
            buckets: Buckets::new(alloc, 0)?,
            union_cache: UnionCache::new(alloc)?,
        })
    }

    /// This call is a lemma: it does nothing at run time. Its contract states properties that the lists of every trie
    /// (a store of lists) have (`AreStored`). The contract also states that no two lists of a trie are equal.
    pub fn invariants(&self)
        ensures stored { AreStored self.now }
        ensures different { AreDifferent self.now }
    {
        self.nodes.invariants();
    }

    /// Returns the list with the ID `k` in the form in which it is stored: its pairs, or the IDs of its two halves.
    pub fn shape(&self, k: u32) -> Shape<'_>
        requires { k < length self.now }
        ensures { IsShape self.now k result }
    {
        self.nodes.shape(k)
    }

    /// Returns the fingerprint (a hash of 64 bits) of the list with the ID `k`.
    pub fn sum(&self, k: u32) -> u64
        requires { k < length self.now }
        ensures { result ≡ fingerprint_of (list_at self.now k) }
    {
        self.sums[k as usize]
    }

    /// Computes the fingerprint (a hash of 64 bits) of the list that `shape` describes. The argument `shape` contains
    /// either the pairs of the list, or the IDs of the two halves of the list.
    fn sum_of(&self, shape: Shape<'_>) -> u64
        requires { Suits self.now shape }
        ensures { result ≡ fingerprint_of (list_of_shape self.now shape.entry) }
    {
        match shape {
            Shape::Whole(list) => fingerprint(list),
            Shape::Halved(halves) => self.sum(halves.below).wrapping_add(self.sum(halves.above)),
        }
    }

    /// Interns the list that `shape` describes, and returns its ID. The argument `shape` contains either the pairs of
    /// the list, or the IDs of the two halves of the list.
    pub fn intern(&mut self, shape: Shape<'_>) -> Result<u32, Memory>
        requires { Suits self.old shape }
        ensures within { IfOk result (λ k. k < length self.new) }
        ensures list { IfOk result (λ k. list_at self.new k ≡ list_of_shape self.old shape.entry) }
        ensures grow { Grow self.old self.new }
    {
        self.nodes.invariants();
        let sum = self.sum_of(shape);
        if let Some(id) = find(&self.nodes, &self.buckets, shape, mix(sum)) {
            return Ok(id);
        }
        self.add_list(shape, sum)
    }

    /// Appends the list that `shape` describes, and returns its ID. The argument `shape` contains either the pairs of
    /// the list, or the IDs of the two halves of the list. The argument `sum` is the fingerprint (a hash of 64 bits) of
    /// the list. The caller must ensure that no stored list is equal to this list.
    fn add_list(&mut self, shape: Shape<'_>, sum: u64) -> Result<u32, Memory>
        requires suits { Suits self.old shape }
        requires sum { sum ≡ fingerprint_of (list_of_shape self.old shape) }
        requires absent { IsNewList self.old (list_of_shape self.old shape) }
        ensures grow { Grow self.old self.new }
        ensures added { OnOk result
            (self.new ≡ self.old ++ list_of_shape self.old shape.entry ∷ []) }
        ensures id { IfOk result (λ j. j ≡ length self.old) }
        ensures err { OnErr result (self.new ≡ self.old) }
    {
        self.nodes.invariants();
        self.sums.reserve(1)?;
        self.buckets.make_room()?;
        let id = self.nodes.push(shape)?;
        self.buckets.push(mix(sum));
        self.sums.push_reserved(sum);
        Ok(id)
    }

    /// Returns the ID of the union of the lists with the IDs `j` and `k` if this union is in the union cache, which is
    /// a hash table of unions that were computed before. Otherwise, the call returns `None`.
    pub fn cached_union(&self, j: u32, k: u32) -> Option<u32>
        ensures { IfSome result (IsUnion self.now (j, k)) }
    {
        self.union_cache.find(j.min(k), j.max(k))
    }

    /// Stores in the union cache, which is a hash table of unions that were computed before, that the list with the ID
    /// `i` is the union of the lists with the IDs `j` and `k`.
    pub fn cache_union(&mut self, j: u32, k: u32, i: u32) -> Result<(), Memory>
        requires { IsUnion self.old (j, k) i }
        ensures { self.new ≡ self.old }
    {
        self.union_cache.store(j.min(k), j.max(k), i)
    }

    /// Returns whether the pair `pair` is in the list with the ID `k`.
    pub fn has(&self, k: u32, pair: (u32, u32)) -> bool
        requires { k < length self.now }
        ensures { IsTrue result ↔ Contains (list_at self.now k) pair }
    {
        self.invariants();
        match self.shape(k) {
            Shape::Whole(list) => has(list, pair),
            Shape::Halved(halves) => {
                if key(pair) < halves.cut {
                    return self.has(halves.below, pair);
                }
                self.has(halves.above, pair)
            }
        }
    }

    /// Merges the list with the ID `k` and the list `pairs`, and appends the merged list to `out`. If the call fails, a
    /// part of the merged list may have been appended.
    pub fn append_with(
        &self,
        k: u32,
        pairs: &[(u32, u32)],
        out: &mut Vec<(u32, u32)>,
    ) -> Result<(), Memory>
        requires list { k < length self.now }
        requires ascending { IsStrictlySortedBy pair_cmp pairs.now }
        requires fit { Fit pairs.now }
        ensures appended { OnOk result
            (out.new.items ≡ out.old.items ++ merged (list_at self.now k) pairs.now) }
        ensures err { OnErr result ((more : List (ℕ × ℕ))
            × (out.new.items ≡ out.old.items ++ more)) }
    {
        self.invariants();
        match self.shape(k) {
            Shape::Whole(list) => append_merged(list, pairs, out),
            Shape::Halved(halves) => {
                let (few, more) = parted(pairs, halves.cut);
                self.append_with(halves.below, few, out)?;
                self.append_with(halves.above, more, out)
            }
        }
    }

    /// Removes all lists except for the empty list. The memory stays allocated for later lists.
    pub fn clear(&mut self)
        ensures { self.new ≡ [] ∷ [] }
    {
        self.nodes.invariants();
        self.nodes.clear();
        self.sums.truncate(1);
        self.buckets.clear();
        self.union_cache.clear();
    }
}
