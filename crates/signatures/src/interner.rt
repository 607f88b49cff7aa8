//! This module is the public layer of the crate. It interns lists of pairs, and computes unions of these lists. A list
//! is stored in two parts: its base, which is a list of pairs that several lists can share, and its extra pairs, which
//! are all other pairs of the list.
ghost use Rattle.std.specs.Prelude.{◌≡◌, ◌⊎◌, ◌↔◌, ℕ, ◌++◌, ◌∷◌, ◌<◌, List, [], length, IfOk, IfSome, OnOk, OnErr};
ghost use Rattle.std.specs.Prelude.{IsTrue};
ghost use Rattle.std.specs.List.{All, Contains};
ghost use Rattle.std.specs.List.Sorted.{IsStrictlySortedBy};
ghost use Rattle.signatures.specs.Lists.{pair_cmp, list_at, AreLists, AreIds, Grow, HasOne};
ghost use Rattle.signatures.specs.Extensions.{Includes};

use crate::cut::fit;
use crate::extensions::Extensions;
use crate::list_union::union_of;
use crate::sorted_lists::{has, has_all};
use crate::table::Table;
use crate::trie::Trie;
use crate::unions::Bases;
use buckets::{Buckets, EMPTY};
use memory::Memory;
use std::alloc::Global;
use std::marker::Model;

/// Interned lists of pairs. Each list is in strictly ascending order, and is stored only once, so that equal lists have
/// the same ID. The empty list has the ID `EMPTY`.
pub struct Interner {
    bases: Bases,
    table: Table,
}

/// `Drop` is implemented explicitly to make proofs faster: see the row "Drops" of the table in `docs/changing.md`.
impl Drop for Interner {
    fn drop(self) {
        let Interner { bases: _, table: _ } = self;
    }
}

impl Model for Interner {
    ghost use Rattle.std.specs.Prelude.{ℕ, List};

    ghost Value = { List (List (ℕ × ℕ)) };

    ghost use Rattle.signatures.specs.Extensions.{extended_lists, AreExtended};

    ghost view = { λ x. extended_lists x.bases.trie x.table.extensions };

    ghost invariant = { λ x. AreExtended x.bases.trie x.table.extensions x.table.buckets.tags };
}

impl Interner {
    /// Makes an interner that contains only the empty list, and allocates memory for `room` other lists. Without this
    /// allocation, the tables of the interner would grow by doubling, and would take up to a third more memory.
    pub fn new(alloc: Global, room: u32) -> Result<Interner, Memory>
        ensures { IfOk result (λ x. x ≡ [] ∷ []) }
    {
        Ok(Interner {
            bases: Bases {
                trie: Trie::new(alloc)?,
                held: Vec::new(alloc),
                merged: Vec::new(alloc),
                marks: Vec::new(alloc),
            },
            table: Table {
                extensions: Extensions::new(alloc, room)?,
                buckets: Buckets::new(alloc, room)?,
            },
        })
    }

    /// This call is a lemma: it does nothing at run time. Its contract states properties that the lists of every
    /// interner have (`AreLists`), for example that no two of these lists are equal.
    pub fn invariants(&self)
        ensures { AreLists self.now }
    {
        self.bases.trie.invariants();
        self.table.buckets.invariants();
        let _ = &self.table.extensions;
    }

    /// Returns the number of lists, including the empty list.
    pub fn len(&self) -> u32
        ensures { result ≡ length self.now }
    {
        self.table.buckets.len()
    }

    /// Appends to `pairs` the pairs of the list with the ID `k`.
    pub fn append(&self, k: u32, pairs: &mut Vec<(u32, u32)>) -> Result<(), Memory>
        requires { k < length self.now }
        ensures appended { OnOk result (pairs.new.items ≡ pairs.old.items ++ list_at self.now k) }
        ensures err { OnErr result (pairs.new.items ≡ pairs.old.items) }
    {
        let trie = &self.bases.trie;
        trie.invariants();
        let list = self.table.extensions.of(k);
        fit(list.extra);
        let had = pairs.len();
        if trie.append_with(list.base, list.extra, pairs).is_err() {
            pairs.truncate(had);
            return Err(Memory);
        }
        Ok(())
    }

    /// Interns the list `pairs`: returns the ID of the stored list that is equal to `pairs`. If there is no such list,
    /// the call adds `pairs` as a new list, and returns the ID of this new list. The pairs must be in strictly
    /// ascending order.
    pub fn push(&mut self, pairs: &[(u32, u32)]) -> Result<u32, Memory>
        requires { IsStrictlySortedBy pair_cmp pairs.now }
        ensures within { IfOk result (λ k. k < length self.new) }
        ensures list { IfOk result (λ k. list_at self.new k ≡ pairs.now) }
        ensures grow { Grow self.old self.new }
    {
        self.bases.trie.invariants();
        self.table.intern_with(&mut self.bases, EMPTY, pairs)
    }

    /// Returns whether the pair `pair` is in the list with the ID `k`.
    #[inline(always)]
    pub fn has(&self, k: u32, pair: (u32, u32)) -> bool
        requires { k < length self.now }
        ensures { IsTrue result ↔ Contains (list_at self.now k) pair }
    {
        let list = self.table.extensions.of(k);
        if has(list.extra, pair) {
            return true;
        }
        self.bases.trie.invariants();
        if list.base == EMPTY {
            return false;
        }
        self.bases.trie.has(list.base, pair)
    }

    /// If the result is true, the list with the ID `k` contains all pairs of the list with the ID `j`. A list is stored
    /// in two parts: its base, which is a list of pairs that several lists can share, and its extra pairs, which are
    /// all other pairs of the list. If the two lists do not have the same base, the call compares no pairs, and returns
    /// false.
    fn has_list(&self, k: u32, j: u32) -> bool
        requires list { k < length self.now }
        requires other { j < length self.now }
        ensures { IsTrue result → Includes (list_at self.now k) (list_at self.now j) }
    {
        let list = self.table.extensions.of(k);
        let other = self.table.extensions.of(j);
        list.base == other.base && has_all(list.extra, other.extra)
    }

    /// Tests quickly whether the list with the last ID in `lists` contains all pairs of the other lists with an ID in
    /// `lists`, and all pairs in `pairs`. If the test succeeds, this list is the union of all these lists and of
    /// `pairs`. The call then returns the ID of this list, so that nothing has to be sorted. If the test fails, or if
    /// `lists` contains fewer than two IDs, the call returns `None`. The test can fail even if the list with the last
    /// ID contains all pairs of the other lists and all pairs in `pairs`.
    fn last_with_all(&self, lists: &[u32], pairs: &[(u32, u32)]) -> Option<u32>
        requires { AreIds self.now lists.now }
        ensures within { IfSome result (λ k. k < length self.now) }
        ensures exactly { IfSome result
            (λ k. (z : ℕ × ℕ) → Contains (list_at self.now k) z
            ↔ (Contains pairs.now z ⊎ HasOne self.now lists.now z)) }
    {
        // The test is made only if there are at least two lists. A single list usually lacks some pairs of the union,
        // so that the test would waste time.
        let [_, .., list] = lists else {
            return None;
        };
        if has_lists(self, *list, lists) && has_pairs(self, *list, pairs) {
            return Some(*list);
        }
        None
    }

    /// Computes the union of the lists with the IDs in `lists` and of `pairs`, and returns the ID of the union. The
    /// pairs may be in any order. The call uses `pairs` as working memory, so that the contents of `pairs` after the
    /// call are unspecified.
    ///
    /// Each list is stored in two parts: its base, which is a list of pairs that several lists can share, and its extra
    /// pairs, which are all other pairs of the list. To compute the union of the lists, the call first computes and
    /// stores unions of their bases. If the call fails, the unions that it has already stored are not removed.
    pub fn join(&mut self, lists: &[u32], pairs: &mut Vec<(u32, u32)>) -> Result<u32, Memory>
        requires { AreIds self.old lists.now }

        // On success
        ensures within { IfOk result (λ k. k < length self.new) }
        ensures exactly { IfOk result
            (λ k. (z : ℕ × ℕ) → Contains (list_at self.new k) z
            ↔ (Contains pairs.old.items z ⊎ HasOne self.old lists.now z)) }

        // Always
        ensures grow { Grow self.old self.new }
    {
        if let Some(list) = self.last_with_all(lists, pairs) {
            return Ok(list);
        }
        let base = union_of(&mut self.bases, &self.table.extensions, lists, pairs)?;
        self.table.intern_with(&mut self.bases, base, pairs)
    }

    /// Removes all lists except for the empty list. The memory stays allocated for later lists.
    pub fn clear(&mut self)
        ensures { self.new ≡ [] ∷ [] }
    {
        self.bases.trie.clear();
        self.table.extensions.clear();
        self.table.buckets.clear();
    }
}

/// If the result is true, the list with the ID `k` contains all pairs of each list with an ID in `ids`. The result is
/// false if the method `has_list` returns false for `k` and an ID in `ids` other than `k`.
fn has_lists(lists: &Interner, k: u32, ids: &[u32]) -> bool
    requires list { k < length lists.now }
    requires ids { AreIds lists.now ids.now }
    ensures { IsTrue result → All
        (λ j. Includes (list_at lists.now k) (list_at lists.now j)) ids.now }
{
    for j in ids {
        if *j == k {
            continue;
        }
        if !lists.has_list(k, *j) {
            return false;
        }
    }
    true
}

/// Returns whether all pairs in `pairs` are in the list with the ID `k`.
fn has_pairs(lists: &Interner, k: u32, pairs: &[(u32, u32)]) -> bool
    requires { k < length lists.now }
    ensures { IsTrue result ↔ All (Contains (list_at lists.now k)) pairs.now }
{
    for pair in pairs {
        if !lists.has(k, *pair) {
            return false;
        }
    }
    true
}
