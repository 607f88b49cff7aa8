//! Defines the union cache, which is a hash table of unions of two lists that were computed before. Because of the
//! cache, few unions are computed twice.
ghost use Rattle.std.specs.Prelude.{◌≡◌, ◌⊎◌, ℕ, ◌<◌, map, length, IfOk, IfSome};
ghost use Rattle.std.specs.List.{All, Contains};
ghost use Rattle.signatures.specs.Unions.{union_entry, HasSlots, IsNone};

use crate::hashes::mix;
use buckets::{bucket, hash};
use memory::Memory;
use std::alloc::Global;
use std::marker::Model;

/// The number of slots of a new union cache, which is a hash table of unions that were computed before.
const FIRST_SLOTS: usize = 1 << 6;

/// The largest number of slots that a union cache may have. A union cache is a hash table of unions that were computed
/// before.
const MOST_SLOTS: usize = 1 << 26;

/// The growth factor of the union cache, which is a hash table of unions that were computed before. The cache counts
/// the unions that have been stored in it since it was made or last cleared. This count includes unions that were later
/// replaced by other unions in the same slot. If the count exceeds the number of slots, the number of slots is
/// multiplied by the growth factor, up to `MOST_SLOTS`.
const GROWTH_FACTOR: usize = 4;

/// An entry of the union cache, which is a hash table of unions that were computed before. The entry contains the IDs
/// of two lists, and the ID of their union.
#[derive(Clone, Copy)]
pub(crate) struct Union {
    first: u32,
    second: u32,
    union: u32,
}

/// The entry that fills each empty slot of the union cache, which is a hash table of unions that were computed before.
/// This entry states that the union of the empty list with itself is the empty list.
const NO_UNION: Union = Union {
    first: 0,
    second: 0,
    union: 0,
};

/// A hash table of unions of two lists. The IDs of the two lists determine the slot in which their union is stored. If
/// the slot already contains another union, the new union replaces this union.
#[derive(Drop)]
pub(crate) struct UnionCache {
    unions: Vec<Union>,
    /// The number of unions that have been stored since this hash table was made or last cleared.
    stored: usize,
}

impl Model for UnionCache {
    ghost use Rattle.std.specs.Prelude.{ℕ, List, map, length};

    ghost Value = { List ((ℕ × ℕ) × ℕ) };

    ghost use Rattle.signatures.specs.Unions.{union_entry, HasSlots};

    ghost view = { λ x. map union_entry x.unions.items };

    ghost invariant = { λ x. HasSlots (length x.unions.items) };
}

impl UnionCache {
    /// Makes an empty hash table of unions.
    pub fn new(alloc: Global) -> Result<UnionCache, Memory>
        ensures { IfOk result (All IsNone) }
    {
        let mut unions = Vec::new(alloc);
        unions.resize(FIRST_SLOTS, NO_UNION)?;
        Ok(UnionCache { unions, stored: 0 })
    }

    /// Returns the ID of the union of the lists with the IDs `j` and `k`, or `None` if this hash table of unions does
    /// not contain the union.
    pub fn find(&self, j: u32, k: u32) -> Option<u32>
        ensures { IfSome result (λ i. Contains self.now ((j, k), i)) }
    {
        let found = &self.unions[slot(j, k, self.unions.len())];
        if found.first == j && found.second == k {
            return Some(found.union);
        }
        None
    }

    /// Stores in this hash table of unions that the list with the ID `i` is the union of the lists with the IDs `j` and
    /// `k`.
    pub fn store(&mut self, j: u32, k: u32, i: u32) -> Result<(), Memory>
        ensures { (z : (ℕ × ℕ) × ℕ) → Contains self.new z → Contains self.old z ⊎ IsNone z
            ⊎ (z ≡ ((j, k), i)) }
    {
        widen(&mut self.unions, self.stored)?;
        self.stored = self.stored.saturating_add(1);
        let at = slot(j, k, self.unions.len());
        self.unions[at] = Union {
            first: j,
            second: k,
            union: i,
        };
        Ok(())
    }

    /// Removes all unions from this hash table.
    pub fn clear(&mut self)
        ensures { All IsNone self.new }
    {
        // Keep one slot for each union that was stored. The next round of the partition refinement usually computes no
        // more unions than the last round, so that these slots are enough.
        let slots = FIRST_SLOTS.max(self.stored);
        self.unions.truncate(slots);
        self.unions.fill(NO_UNION);
        self.stored = 0;
    }
}

/// Returns the index of the slot in which a hash table of unions with `slots` slots stores the union of the lists with
/// the IDs `j` and `k`.
fn slot(j: u32, k: u32, slots: usize) -> usize
    requires { HasSlots slots }
    ensures { result < slots }
{
    bucket(mix(hash(j, u64::from(k))), slots)
}

/// The union cache is a hash table of unions that were computed before. If the cache has too few slots, `widen` adds
/// slots to the cache, and removes all unions from the cache. The argument `stored` is the number of unions that have
/// been stored since the cache was made or last cleared, including unions that were replaced. The cache has too few
/// slots if the number of slots is less than `stored` and less than `MOST_SLOTS`.
fn widen(unions: &mut Vec<Union>, stored: usize) -> Result<(), Memory>
    requires { HasSlots (length unions.old.items) }
    ensures slots { HasSlots (length unions.new.items) }
    ensures same { (z : (ℕ × ℕ) × ℕ) → Contains (map union_entry unions.new.items) z →
        Contains (map union_entry unions.old.items) z ⊎ IsNone z }
{
    if stored <= unions.len() || MOST_SLOTS <= unions.len() {
        return Ok(());
    }
    unions.resize(MOST_SLOTS.min(GROWTH_FACTOR * unions.len()), NO_UNION)?;
    unions.fill(NO_UNION);
    Ok(())
}
