//! This crate implements hash tables. Each entry of a table has an ID and a tag, which is a hash. For each tag,
//! `Buckets` returns the IDs of all entries with this tag one by one, in descending order. The tables store no keys. So
//! a caller that searches for a key has to compare this key with the key of each returned ID. `Buckets::new` and
//! `widen` fail only if there is no memory for the entries or the buckets. `make_room` also fails if all IDs are in
//! use.
#![tactic(auto)]

mod chains;
mod hashing;

ghost use Rattle.std.specs.Prelude.{◌≡◌, ◌^◌, ◌++◌, ◌∷◌, ◌<◌, ◌≤◌, [], length, IfOk, OnOk};
ghost use Rattle.std.specs.List.{All};
ghost use Rattle.buckets.specs.Buckets.{tag_at, IsLast};

pub use chains::bucket;
use chains::{Entry, NO_ENTRY, add_entry, down, empty, widen};
pub use hashing::hash;
use memory::Memory;
use std::alloc::Global;
use std::marker::Model;

/// The ID 0 stands for no entry. It marks the end of each sequence of IDs that the table returns for a tag, which is a
/// hash.
pub const EMPTY: u32 = 0;

/// The largest possible number of IDs, including the ID 0.
pub const MOST_ENTRIES: usize = 0xFFFF_FFFF;

/// The largest number of buckets of a new table. A new table has fewer buckets only if it is made with room for fewer
/// entries than this number. Buckets are added later, when there are more entries than buckets.
const FIRST_BUCKETS: usize = 1 << 12;

/// The largest possible number of buckets.
const MOST_BUCKETS: usize = 1 << 26;

/// The growth factor: when there are more entries than buckets, the number of buckets is multiplied by this factor.
const GROWTH_FACTOR: usize = 4;

/// Emptying the bucket that a given entry belongs to takes about as long as emptying this number of buckets that are
/// next to each other in memory. The reason is that the position of the bucket has to be computed from the tag of the
/// entry, which is a hash.
const BUCKETS_PER_ENTRY: usize = 16;

/// A hash table that maps each tag, which is a hash of 32 bits, to the IDs of the entries with this tag. The first
/// entry that is pushed has the ID 1, the second entry has the ID 2, and so on. The ID 0 stands for no entry.
#[derive(Drop)]
pub struct Buckets {
    /// The greatest ID in each bucket, or 0 if the bucket is empty.
    heads: Vec<u32>,
    /// For each ID, the tag (a hash) of its entry, and the next smaller ID in the same bucket.
    entries: Vec<Entry>,
}

impl Model for Buckets {
    ghost use Rattle.buckets.specs.Buckets.{Tagged};

    ghost Value = { Tagged };

    ghost use Rattle.std.specs.Prelude.{◌-◌};
    ghost use Rattle.std.specs.Vec.{vec_len, vec_capacity};
    ghost use Rattle.buckets.specs.Chains.{tags_of, AreBuckets};

    ghost view = { λ x. record {
      tags = tags_of x.entries.items;
      room = vec_capacity x.entries - vec_len x.entries;
    } };

    ghost invariant = { λ x. AreBuckets x.heads.items x.entries.items };
}

impl Buckets {
    /// Returns a table without entries, which has memory for `room` entries.
    pub fn new(alloc: Global, room: u32) -> Result<Buckets, Memory>
        ensures { IfOk result (λ x. x.tags ≡ 0 ∷ []) }
    {
        let buckets = (room as usize + 1).min(MOST_BUCKETS);
        let mut heads = Vec::with_capacity(alloc, buckets)?;
        heads.resize(buckets.min(FIRST_BUCKETS), 0)?;
        let mut entries = Vec::with_capacity(alloc, room as usize + 1)?;
        entries.push(NO_ENTRY)?;
        Ok(Buckets { heads, entries })
    }

    /// This call is a lemma: it does nothing at run time. Its contract states properties of the tags (hashes of 32
    /// bits) in a table.
    pub fn invariants(&self)
        ensures some { 1 ≤ length self.now.tags }
        ensures few { length self.now.tags ≤ MOST_ENTRIES }
        ensures tags { All (λ tag. tag < 2 ^ 32) self.now.tags }
    {
        let _ = &self.entries;
    }

    /// Returns the number of IDs, including the ID 0.
    #[inline(always)]
    pub fn len(&self) -> u32
        ensures { result ≡ length self.now.tags }
    {
        self.entries.len() as u32
    }

    /// Returns the greatest ID whose entry has the tag `tag` (a hash of 32 bits), or 0 if no entry has this tag.
    #[inline(always)]
    pub fn last(&self, tag: u32) -> u32
        ensures { IsLast self.now.tags tag (length self.now.tags) result }
    {
        let first = self.heads[bucket(tag, self.heads.len())];
        down(&self.entries, tag, first)
    }

    /// Returns the greatest ID that is less than `r` and whose entry has the same tag (a hash of 32 bits) as the entry
    /// with the ID `r`. Returns 0 if there is no such ID.
    #[inline(always)]
    pub fn before(&self, r: u32) -> u32
        requires some { 0 < r }
        requires within { r < length self.now.tags }
        ensures { IsLast self.now.tags (tag_at self.now.tags r) r result }
    {
        let entry = self.entries[r as usize];
        down(&self.entries, entry.tag, entry.before)
    }

    /// Makes room for one more entry, and adds buckets if there are more entries than buckets.
    #[inline(always)]
    pub fn make_room(&mut self) -> Result<(), Memory>
        ensures same { self.new.tags ≡ self.old.tags }
        ensures few { OnOk result (length self.new.tags < MOST_ENTRIES) }
        ensures room { OnOk result (0 < self.new.room) }
    {
        if self.entries.len() < self.entries.capacity().min(self.heads.len()) {
            return Ok(());
        }
        self.grow()
    }

    /// Makes room for one more entry, and adds buckets if there are more entries than buckets. If all IDs are in use,
    /// the function asks for more memory than any computer has, and therefore fails.
    #[inline(never)]
    fn grow(&mut self) -> Result<(), Memory>
        ensures same { self.new.tags ≡ self.old.tags }
        ensures few { OnOk result (length self.new.tags < MOST_ENTRIES) }
        ensures room { OnOk result (0 < self.new.room) }
    {
        let more = if self.entries.len() < MOST_ENTRIES {
            1
        } else {
            usize::MAX
        };
        self.entries.reserve(more)?;
        widen(&mut self.heads, &mut self.entries)
    }

    /// Adds an entry with the tag `tag`, which is a hash of 32 bits. The entry gets the next unused ID.
    pub fn push(&mut self, tag: u32)
        requires few { length self.old.tags < MOST_ENTRIES }
        requires room { 0 < self.old.room }
        ensures { self.new.tags ≡ self.old.tags ++ tag ∷ [] }
    {
        add_entry(&mut self.heads, &mut self.entries, tag);
    }

    /// Removes all entries, but keeps their memory for later entries.
    pub fn clear(&mut self)
        ensures { self.new.tags ≡ 0 ∷ [] }
    {
        empty(&mut self.heads, &self.entries);
        self.entries.truncate(1);
    }
}
