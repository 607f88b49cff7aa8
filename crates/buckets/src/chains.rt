//! The entries of a hash table, and the chains of its buckets. The chain of a bucket links all entries in this bucket,
//! in descending order of their IDs. Each entry has a tag, which is a hash and determines the bucket of the entry.
ghost use Rattle.std.specs.Prelude.{◌≡◌, ℕ, ◌^◌, ◌+◌, ◌++◌, ◌∷◌, ◌<◌, ◌≤◌, [], length, slice_index};
ghost use Rattle.std.specs.Vec.{vec_len, vec_capacity};
ghost use Rattle.buckets.specs.Buckets.{IsLast};
ghost use Rattle.buckets.specs.Chains.{tags_of, bucket_of_tag, IsInChain, AreBuckets, AreChained};
ghost use Rattle.buckets.specs.declared.TheConstants.{MOST_ENTRIES};

use crate::{BUCKETS_PER_ENTRY, EMPTY, FIRST_BUCKETS, GROWTH_FACTOR, MOST_BUCKETS};
use memory::Memory;

/// An entry of the table: its tag, which is a hash, and a link to another entry in the same bucket.
#[derive(Clone, Copy)]
pub(crate) struct Entry {
    pub tag: u32,
    /// The previous ID in the same bucket, or 0 if there is no previous ID.
    pub before: u32,
}

/// The entry with the ID 0, which is in no bucket.
pub(crate) const NO_ENTRY: Entry = Entry { tag: 0, before: 0 };

/// Returns the bucket for the tag `tag`, which is a hash of 32 bits, in a table with `buckets` buckets.
#[inline(always)]
pub fn bucket(tag: u32, buckets: usize) -> usize
    requires some { 0 < buckets }
    requires few { buckets < 2 ^ 32 }
    ensures value { result ≡ bucket_of_tag buckets tag }
    ensures below { result < buckets }
{
    (u64::from(tag) * buckets as u64 / 0x1_0000_0000) as usize
}

/// Searches the chain of a bucket, which links the IDs of the entries in the bucket in descending order. The search
/// begins with the ID `first`. Returns the greatest ID in the chain that is at most `first` and whose entry has the tag
/// `tag` (a hash of 32 bits), or 0 if there is no such ID.
#[inline(always)]
pub(crate) fn down(entries: &[Entry], tag: u32, first: u32) -> u32
    requires within { first < length entries.now }
    requires chain { IsInChain entries.now tag first }
    ensures { IsLast (tags_of entries.now) tag (first + 1) result }
{
    let mut r = first;
    while r != EMPTY {
        let entry = &entries[r as usize];
        if entry.tag == tag {
            return r;
        }
        r = entry.before;
    }
    EMPTY
}

/// Adds an entry with the tag `tag` (a hash of 32 bits) at the head of the chain of its bucket, which links all entries
/// in the bucket.
pub(crate) fn add_entry(heads: &mut [u32], entries: &mut Vec<Entry>, tag: u32)
    requires buckets { AreBuckets heads.old entries.old.items }
    requires few { length entries.old.items < MOST_ENTRIES }
    requires room { vec_len entries.old < vec_capacity entries.old }
    ensures buckets { AreBuckets heads.new entries.new.items }
    ensures put { tags_of entries.new.items ≡ tags_of entries.old.items ++ tag ∷ [] }
{
    let number = entries.len() as u32;
    let b = bucket(tag, heads.len());
    entries.push_reserved(Entry {
        tag,
        before: heads[b],
    });
    heads[b] = number;
}

/// If there are more entries than buckets, this function adds buckets (up to a total of `MOST_BUCKETS`), and puts all
/// entries into their new buckets. The entries in each bucket are linked into a chain. A table with few entries has few
/// buckets, and therefore stays in the cache of the processor.
///
/// If this function fails, the buckets do not change.
pub(crate) fn widen(heads: &mut Vec<u32>, entries: &mut [Entry]) -> Result<(), Memory>
    requires { AreBuckets heads.old.items entries.old }
    ensures buckets { AreBuckets heads.new.items entries.new }
    ensures tags { tags_of entries.new ≡ tags_of entries.old }
{
    if entries.len() <= heads.len() || MOST_BUCKETS <= heads.len() {
        return Ok(());
    }
    heads.resize(MOST_BUCKETS.min(GROWTH_FACTOR * heads.len()), 0)?;
    heads.fill(0);
    chain(heads, entries);
    Ok(())
}

/// Puts each entry, except for the entry with the ID 0, into the chain of its bucket. The chain of a bucket links all
/// entries in this bucket. All buckets must be empty before the call.
fn chain(heads: &mut [u32], entries: &mut [Entry])
    requires buckets { (0 < length heads.old) × (length heads.old < 2 ^ 32) }
    requires none { (b : ℕ) → b < length heads.old → slice_index heads.old b ≡ 0 }
    requires few { (0 < length entries.old) × (length entries.old ≤ MOST_ENTRIES) }
    ensures buckets { length heads.new ≡ length heads.old }
    ensures tags { tags_of entries.new ≡ tags_of entries.old }
    ensures chained { AreChained (length entries.new) entries.new heads.new }
{
    for r in 1..entries.len() {
        let tag = entries[r].tag;
        let b = bucket(tag, heads.len());
        entries[r] = Entry {
            tag,
            before: heads[b],
        };
        heads[b] = r as u32;
    }
}

/// Empties all buckets. If there are more buckets than entries, the number of buckets is reduced to the number of
/// entries, but not below `FIRST_BUCKETS`. The reason is that a table seldom gets more entries after this call than it
/// has before this call. If there are far fewer entries than buckets, the call empties only the buckets of these
/// entries, since all other buckets are already empty.
pub(crate) fn empty(heads: &mut Vec<u32>, entries: &[Entry])
    requires { AreBuckets heads.old.items entries.now }
    ensures buckets { (0 < length heads.new.items) × (length heads.new.items < 2 ^ 32) }
    ensures none { (b : ℕ) → b < length heads.new.items → slice_index heads.new.items b ≡ 0 }
{
    let buckets = FIRST_BUCKETS.max(entries.len());
    if entries.len() < heads.len().min(buckets) / BUCKETS_PER_ENTRY {
        empty_each(heads, entries);
        heads.truncate(buckets);
        return;
    }
    heads.truncate(buckets);
    heads.fill(0);
}

/// Empties the bucket of each entry, so that all buckets are empty after the call.
fn empty_each(heads: &mut [u32], entries: &[Entry])
    requires { AreBuckets heads.old entries.now }
    ensures { (b : ℕ) → b < length heads.new → slice_index heads.new b ≡ 0 }
{
    for entry in entries {
        let b = bucket(entry.tag, heads.len());
        heads[b] = 0;
    }
}
