//! Computes the union of several lists and of some pairs. Lists are stored in two parts: a base, which is a list of
//! pairs that several lists can share, and extra pairs, which are all other pairs of the list. The union is computed in
//! the same form.
ghost use Rattle.std.specs.Prelude.{◌≡◌, ◌⊎◌, ◌↔◌, ℕ, ◌<◌, length, IfOk, OnOk, IsTrue, Some};
ghost use Rattle.std.specs.List.{All, Contains};
ghost use Rattle.std.specs.List.Sorted.{IsStrictlySortedBy};
ghost use Rattle.signatures.specs.Lists.{pair_cmp, list_at, Grow, HasOne};
ghost use Rattle.signatures.specs.Extensions.{ShareNone, IsExtension, extended_lists, HasBase, HasExtra};

use crate::extensions::Extensions;
use crate::sort_by_marks::order_many;
use crate::sorted_lists::append_merged;
use crate::trie::Trie;
use crate::unions::Bases;
use buckets::EMPTY;
use memory::Memory;
use std::mem::swap;

/// Each list, and also a union of lists, is stored in two parts: its base, which is a list of pairs that several lists
/// can share, and its extra pairs, which are all other pairs of the list. If a union is made of at most 16 lists
/// (`MOST_MERGED_LISTS`), the extra pairs of each list that has the same base as the union are merged into the union,
/// one list after the other. Each merge copies the pairs that were merged before, so that each pair is copied at most
/// 16 times. If the extra pairs of more lists were merged in this way, the time would be proportional to the number of
/// pairs times the number of lists. This time would be too long for a state that has inert transitions (internal
/// transitions within its block) to 80,000 other states, if each of these states has a transition with its own label.
/// If the pairs were always sorted, and never merged, the minimisation of systems that are grids would take 3 % more
/// time.
const MOST_MERGED_LISTS: usize = 16;

/// Computes the union of the lists with the IDs `ids` and of `pairs`. The union is returned in two parts: its base,
/// which is a list of pairs that several lists can share, and its extra pairs, which are all other pairs of the union.
/// The result of the call is the ID of the base. The call replaces the contents of `pairs` by the extra pairs.
pub(crate) fn union_of(
    bases: &mut Bases,
    extensions: &Extensions,
    ids: &[u32],
    pairs: &mut Vec<(u32, u32)>,
) -> Result<u32, Memory>
    requires extensions { All (IsExtension bases.old.trie) extensions.now }
    requires ids { All (λ k. k < length extensions.now) ids.now }
    ensures extra { IfOk result (λ i. IsExtension bases.new.trie (i, pairs.new.items)) }
    ensures exactly { IfOk result (λ i. (z : ℕ × ℕ)
        → (Contains (list_at bases.new.trie i) z ⊎ Contains pairs.new.items z)
        ↔ (Contains pairs.old.items z
        ⊎ HasOne (extended_lists bases.old.trie extensions.now) ids.now z)) }
    ensures grow { Grow bases.old.trie bases.new.trie }
{
    let base = base_of(bases, extensions, ids)?;
    let own = (ids.len() <= MOST_MERGED_LISTS).then_some(base);
    gather(extensions, ids, own, pairs)?;
    order_many(pairs, &mut bases.marks)?;
    remove_pairs_of(&bases.trie, base, pairs);
    merge(extensions, ids, own, pairs, &mut bases.held)?;
    Ok(base)
}

/// Each list has a base, which is a list of pairs that several lists can share. The bases are stored in a separate
/// store, which is called the trie. The function `base_of` computes the union of the bases of the lists with the IDs
/// `ids`, and returns the ID of this union in the trie. The function divides `ids` into two halves, computes the union
/// of the bases for each half, and then unites the two results. If the function processed the IDs one after the other
/// instead, it would build the whole union again for each ID.
fn base_of(bases: &mut Bases, extensions: &Extensions, ids: &[u32]) -> Result<u32, Memory>
    requires extensions { All (IsExtension bases.old.trie) extensions.now }
    requires ids { All (λ k. k < length extensions.now) ids.now }
    ensures within { IfOk result (λ i. i < length bases.new.trie) }
    ensures exactly { IfOk result
        (λ i. (z : ℕ × ℕ) → Contains (list_at bases.new.trie i) z
        ↔ HasBase bases.old.trie extensions.now ids.now z) }
    ensures grow { Grow bases.old.trie bases.new.trie }
{
    bases.trie.invariants();
    if ids.is_empty() {
        return Ok(EMPTY);
    }
    if ids.len() == 1 {
        return Ok(extensions.of(ids[0]).base);
    }
    let (first, second) = ids.split_at(ids.len() / 2);
    let j = base_of(bases, extensions, first)?;
    let k = base_of(bases, extensions, second)?;
    bases.both(j, k)
}

/// Each list, and also a union of lists, is stored in two parts: its base, which is a list of pairs that several lists
/// can share, and its extra pairs, which are all other pairs of the list. The function `is_own` returns whether the
/// base of a list is also the base of the union that is being computed. The argument `base` is the ID of the base of
/// the list. The argument `own` is the ID of the base of the union, or `None` if more than 16 lists are united
/// (`MOST_MERGED_LISTS`). If `own` is `None`, the result is false. If the result is true, the extra pairs of the list
/// are merged into the union. If the result is false, these extra pairs are collected (`gather`) and sorted.
#[inline(always)]
fn is_own(own: Option<u32>, base: u32) -> bool
    ensures { IsTrue result ↔ (own ≡ Some base) }
{
    own == Some(base)
}

/// A list is stored in two parts: its base, which is a list of pairs that several lists can share, and its extra pairs,
/// which are all other pairs of the list. The function `gather` appends to `pairs` the extra pairs of each list that
/// has an ID in `ids`, and whose base does not have the ID `own`. If `own` is `None`, the function appends the extra
/// pairs of all lists with an ID in `ids`.
fn gather(
    extensions: &Extensions,
    ids: &[u32],
    own: Option<u32>,
    pairs: &mut Vec<(u32, u32)>,
) -> Result<(), Memory>
    requires { All (λ k. k < length extensions.now) ids.now }
    ensures { OnOk result ((z : ℕ × ℕ) → Contains pairs.new.items z
        ↔ (Contains pairs.old.items z ⊎ HasExtra extensions.now ids.now
        (λ b. ¬ (own ≡ Some b)) z)) }
{
    for k in ids {
        let list = extensions.of(*k);
        if is_own(own, list.base) {
            continue;
        }
        pairs.extend_from_slice(list.extra)?;
    }
    Ok(())
}

/// Removes from `pairs` each pair that is in the list with the ID `base` in the trie. The trie stores bases, which are
/// lists of pairs that several lists can share.
fn remove_pairs_of(trie: &Trie, base: u32, pairs: &mut Vec<(u32, u32)>)
    requires base { base < length trie.now }
    requires ascending { IsStrictlySortedBy pair_cmp pairs.old.items }
    ensures ascending { IsStrictlySortedBy pair_cmp pairs.new.items }
    ensures apart { ShareNone (list_at trie.now base) pairs.new.items }
    ensures same { let list = list_at trie.now base in
        (z : ℕ × ℕ) → (Contains list z ⊎ Contains pairs.new.items z)
        ↔ (Contains list z ⊎ Contains pairs.old.items z) }
{
    trie.invariants();
    if base == EMPTY {
        return;
    }
    pairs.retain(|pair| !trie.has(base, *pair));
}

/// A list is stored in two parts: its base, which is a list of pairs that several lists can share, and its extra pairs,
/// which are all other pairs of the list. The function `merge` merges into `pairs` the extra pairs of each list that
/// has an ID in `ids`, and whose base has the ID `own`. If `own` is `None`, the function changes nothing. The vector
/// `held` is working memory for the merges.
fn merge(
    extensions: &Extensions,
    ids: &[u32],
    own: Option<u32>,
    pairs: &mut Vec<(u32, u32)>,
    held: &mut Vec<(u32, u32)>,
) -> Result<(), Memory>
    requires ids { All (λ k. k < length extensions.now) ids.now }
    requires extensions { All (λ x. IsStrictlySortedBy pair_cmp x.1) extensions.now }
    requires ascending { IsStrictlySortedBy pair_cmp pairs.old.items }
    ensures ascending { OnOk result (IsStrictlySortedBy pair_cmp pairs.new.items) }
    ensures exactly { OnOk result ((z : ℕ × ℕ) → Contains pairs.new.items z
        ↔ (Contains pairs.old.items z ⊎ HasExtra extensions.now ids.now (λ b. own ≡ Some b) z)) }
{
    if own.is_none() {
        return Ok(());
    }
    for k in ids {
        let list = extensions.of(*k);
        if !is_own(own, list.base) {
            continue;
        }
        held.clear();
        append_merged(list.extra, pairs, held)?;
        swap(held, pairs);
    }
    Ok(())
}
