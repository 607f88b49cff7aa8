//! Interns lists that are stored in two parts: a base, which is a list of pairs that several lists can share, and extra
//! pairs, which are all other pairs of the list. The bases are interned in a separate store, which is called the trie.
//! A list is looked up by its tag, which is a hash of all pairs of the list. So the tag does not depend on which pairs
//! are in the base.
ghost use Rattle.std.specs.Prelude.{◌≡◌, ◌↔◌, ◌++◌, ◌∷◌, ◌<◌, ◌≤◌, [], length, IfOk, OnOk, OnErr, IsTrue, MatchOption};
ghost use Rattle.signatures.specs.Lists.{list_at, Grow};
ghost use Rattle.signatures.specs.Hashed.{fingerprint_of, tag_of, IsNewList, IsIdOf};
ghost use Rattle.signatures.specs.Extensions.{parts_of, extended, IsExtension, extended_lists, AreExtended, TableGrows};
ghost use Rattle.signatures.specs.declared.nodes.TheConstants.{MOST_WHOLE};

use crate::cut::fit;
use crate::extensions::{Extension, Extensions};
use crate::hashes::{are_same, fingerprint, mix};
use crate::nodes::MOST_WHOLE;
use crate::trie::Trie;
use crate::unions::{Bases, with};
use buckets::{Buckets, EMPTY};
use memory::Memory;

/// The stored lists, and a hash table that finds a list by its tag, which is a hash of 32 bits.
#[derive(Drop)]
pub(crate) struct Table {
    /// For each list, the ID of its base, which is a list of pairs that several lists can share, and its extra pairs,
    /// which are all other pairs of the list.
    pub extensions: Extensions,
    /// The hash table, in which the ID of each list is stored under the tag (a hash of 32 bits) of the list.
    pub buckets: Buckets,
}

impl Table {
    /// Interns the list that consists of the pairs in `pairs` and of the pairs of a base, which is a list of pairs that
    /// several lists can share. Returns the ID of the interned list. The base is the list with the ID `base` in the
    /// trie, and must contain none of the pairs in `pairs`. If `pairs` contains more than 64 pairs (`MOST_WHOLE`), the
    /// call first adds the whole list to the trie. The whole list is then its own base, so that no pairs have to be
    /// stored besides the base.
    pub fn intern_with(
        &mut self,
        bases: &mut Bases,
        base: u32,
        pairs: &[(u32, u32)],
    ) -> Result<u32, Memory>
        requires extensions { AreExtended bases.old.trie self.old.extensions self.old.buckets.tags }
        requires list { IsExtension bases.old.trie (base, pairs.now) }
        ensures within { IfOk result (λ k. k < length self.new.extensions) }
        ensures list { IfOk result (λ k. list_at (extended_lists bases.new.trie self.new.extensions)
            k ≡ extended bases.old.trie (base, pairs.now)) }
        ensures keeps { TableGrows bases.old.trie bases.new.trie self.old self.new }
    {
        bases.trie.invariants();
        if pairs.len() <= MOST_WHOLE {
            return self.intern(bases, Extension { base, extra: pairs });
        }
        fit(pairs);
        let base = with(&mut bases.trie, &mut bases.merged, base, pairs)?;
        bases.trie.invariants();
        self.intern(bases, Extension { base, extra: &[] })
    }

    /// Interns a list, and returns its ID. The list is given in two parts: its base, which is a list of pairs that
    /// several lists can share, and its extra pairs, which are all other pairs of the list. The list may have at most
    /// 64 extra pairs (`MOST_WHOLE`).
    fn intern(&mut self, bases: &mut Bases, list: Extension<'_>) -> Result<u32, Memory>
        requires extensions { AreExtended bases.old.trie self.old.extensions self.old.buckets.tags }
        requires list { IsExtension bases.old.trie (parts_of list) }
        requires few { length list.extra.now ≤ MOST_WHOLE }
        ensures within { IfOk result (λ k. k < length self.new.extensions) }
        ensures list { IfOk result (λ k. list_at (extended_lists bases.new.trie self.new.extensions)
            k ≡ extended bases.old.trie (parts_of list.entry)) }
        ensures keeps { TableGrows bases.old.trie bases.new.trie self.old self.new }
    {
        bases.trie.invariants();
        if list.base == EMPTY && list.extra.is_empty() {
            return Ok(EMPTY);
        }
        let tag = mix(sum_of(&bases.trie, list));
        if let Some(id) = self.find(bases, list, tag)? {
            return Ok(id);
        }
        let id = self.add_list(list, tag)?;
        Ok(id)
    }

    /// Returns the ID of the stored list that is equal to `list`, or `None` if there is no such list. The search skips
    /// the list with the ID 0, which is the empty list. The argument `tag` is the tag (a hash of 32 bits) of `list`.
    fn find(&self, bases: &mut Bases, list: Extension<'_>, tag: u32) -> Result<Option<u32>, Memory>
        requires extensions { AreExtended bases.old.trie self.now.extensions self.now.buckets.tags }
        requires list { IsExtension bases.old.trie (parts_of list) }
        requires tag { tag ≡ tag_of (extended bases.old.trie (parts_of list)) }
        ensures found { let all = extended_lists bases.old.trie self.now.extensions in
            let list = extended bases.old.trie (parts_of list.entry) in
            IfOk result (λ found. MatchOption found (IsNewList all list) (IsIdOf all list)) }
        ensures grow { Grow bases.old.trie bases.new.trie }
    {
        bases.trie.invariants();
        self.buckets.invariants();
        let mut r = self.buckets.last(tag);
        while r != EMPTY {
            if is_same(bases, self.extensions.of(r), list)? {
                return Ok(Some(r));
            }
            r = self.buckets.before(r);
        }
        Ok(None)
    }

    /// Appends the list `list` to the table, stores its ID in the hash table under the tag `tag` (a hash of 32 bits),
    /// and returns the ID.
    fn add_list(&mut self, list: Extension<'_>, tag: u32) -> Result<u32, Memory>
        requires few { length list.extra.now ≤ MOST_WHOLE }
        requires size { length self.old.buckets.tags ≡ length self.old.extensions }
        ensures id { IfOk result (λ k. k ≡ length self.old.extensions) }
        ensures extensions { OnOk result
            (self.new.extensions ≡ self.old.extensions ++ parts_of list.entry ∷ []) }
        ensures tags { OnOk result (self.new.buckets.tags ≡ self.old.buckets.tags ++ tag ∷ []) }
        ensures err { OnErr result ((self.new.extensions ≡ self.old.extensions)
            × (self.new.buckets.tags ≡ self.old.buckets.tags)) }
    {
        self.buckets.make_room()?;
        self.extensions.push(list)?;
        let id = self.buckets.len();
        self.buckets.push(tag);
        Ok(id)
    }
}

/// Computes the fingerprint (a hash of 64 bits) of the list `list`. The list is stored in two parts: its base, which is
/// a list of pairs that several lists can share, and its extra pairs, which are all other pairs of the list. The
/// fingerprint of the list is the sum of the fingerprints of these two parts, modulo 2^64.
#[inline(always)]
fn sum_of(trie: &Trie, list: Extension<'_>) -> u64
    requires { IsExtension trie.now (parts_of list) }
    ensures { result ≡ fingerprint_of (extended trie.now (parts_of list.entry)) }
{
    trie.invariants();
    trie.sum(list.base).wrapping_add(fingerprint(list.extra))
}

/// Returns whether the lists `one` and `other` are equal. Each list is given in two parts: its base, which is a list of
/// pairs that several lists can share, and its extra pairs, which are all other pairs of the list. If the two lists
/// have the same base, the call compares their extra pairs. If the bases differ, and the fingerprints (hashes of 64
/// bits) of the two lists also differ, the lists are not equal. If the bases differ, but the fingerprints are equal,
/// the call interns both lists in the trie. In the trie, equal lists have the same ID, so that the call only has to
/// compare the IDs.
fn is_same(bases: &mut Bases, one: Extension<'_>, other: Extension<'_>) -> Result<bool, Memory>
    requires one { IsExtension bases.old.trie (parts_of one) }
    requires other { IsExtension bases.old.trie (parts_of other) }
    ensures same { IfOk result
        (λ same. IsTrue same ↔ (extended bases.old.trie (parts_of one.entry)
        ≡ extended bases.old.trie (parts_of other.entry))) }
    ensures grow { Grow bases.old.trie bases.new.trie }
{
    bases.trie.invariants();
    if one.base == other.base {
        return Ok(are_same(one.extra, other.extra));
    }
    if sum_of(&bases.trie, one) != sum_of(&bases.trie, other) {
        return Ok(false);
    }
    fit(one.extra);
    fit(other.extra);
    let first = with(&mut bases.trie, &mut bases.merged, one.base, one.extra)?;
    let second = with(&mut bases.trie, &mut bases.merged, other.base, other.extra)?;
    bases.trie.invariants();
    Ok(first == second)
}
