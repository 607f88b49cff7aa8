//! Tests of interned lists and of their IDs. An interned list is a list of pairs in ascending order that is stored once
//! and has an ID.
ghost use Rattle.std.specs.Prelude.{IfOk};
ghost use Rattle.std.specs.List.Sorted.{IsStrictlySortedBy};
ghost use Rattle.signatures.specs.Lists.{pair_cmp};

use crate::spread::list_bucket;
use memory::Memory;
use signatures::{EMPTY, Interner, order};
use std::alloc::Global;
use std::test::Fail;
use test_support::check;

type Pairs = &'static [(u32, u32)];

/// An example: its name, the pairs of two lists, whether the lists are equal, and the pairs of their union. In some
/// examples, two different lists have equal tags (hash values), and so both lists are in the same bucket of the hash
/// table.
type Row = (&'static str, Pairs, Pairs, bool, Pairs);

const ROWS: [Row; 8] = [
    ("no pairs", &[], &[], true, &[]),
    ("one is empty", &[(1, 2)], &[], false, &[(1, 2)]),
    (
        "in another order",
        &[(1, 2), (0, 3)],
        &[(0, 3), (1, 2)],
        true,
        &[(0, 3), (1, 2)],
    ),
    (
        "more than once",
        &[(1, 2), (1, 2)],
        &[(1, 2)],
        true,
        &[(1, 2)],
    ),
    (
        "numbers the other way round",
        &[(1, 2)],
        &[(2, 1)],
        false,
        &[(1, 2), (2, 1)],
    ),
    (
        "one begins as the other",
        &[(0, 0), (0, 1)],
        &[(0, 0)],
        false,
        &[(0, 0), (0, 1)],
    ),
    (
        "equal tags, one pair",
        &[(41, 423)],
        &[(131, 397)],
        false,
        &[(41, 423), (131, 397)],
    ),
    (
        "equal tags, two pairs",
        &[(0, 52), (1, 145)],
        &[(0, 115), (1, 109)],
        false,
        &[(0, 52), (0, 115), (1, 109), (1, 145)],
    ),
];

/// Returns whether the two lists have equal tags (hash values). The function compares the buckets of the two lists in a
/// hash table with `u32::MAX` buckets. In such a table, two different tags are always in different buckets, except for
/// the tags 0 and 1.
fn have_one_tag(first: Pairs, second: Pairs) -> bool {
    let buckets = u32::MAX as usize;
    list_bucket(first, buckets) == list_bucket(second, buckets)
}

#[test]
fn rows_of_equal_tags_have_them() -> Result<(), Fail> {
    check("one pair", have_one_tag(&[(41, 423)], &[(131, 397)]))?;
    check(
        "two pairs",
        have_one_tag(&[(0, 52), (1, 145)], &[(0, 115), (1, 109)]),
    )
}

/// Returns the pairs in ascending order and without repetition.
fn ordered(alloc: Global, pairs: &[(u32, u32)]) -> Result<Vec<(u32, u32)>, Memory>
    ensures { IfOk result (λ list. IsStrictlySortedBy pair_cmp list.items) }
{
    let mut list = Vec::from_slice(alloc, pairs)?;
    order(&mut list);
    Ok(list)
}

/// Returns the ID of the list that contains exactly the pairs in `pairs`.
fn number_of(alloc: Global, signatures: &mut Interner, pairs: &[(u32, u32)]) -> Result<u32, Fail> {
    let list = ordered(alloc, pairs)?;
    Ok(signatures.push(&list)?)
}

/// Returns the ID of the union of `pairs` and the lists with the IDs `j` and `k`.
fn union_of(
    alloc: Global,
    signatures: &mut Interner,
    j: u32,
    k: u32,
    pairs: &[(u32, u32)],
) -> Result<u32, Fail> {
    let mut own = ordered(alloc, pairs)?;
    let count = signatures.len();
    if j >= count || k >= count {
        return Err(Fail::new("too few lists"));
    }
    Ok(signatures.join(&[j, k], &mut own)?)
}

/// Fails in three cases: if no list has the ID `k`, if the list with this ID does not consist of the pairs in `wanted`
/// in the same order, or if `has` returns a wrong result for this list.
fn check_list(
    alloc: Global,
    name: &str,
    signatures: &Interner,
    k: u32,
    wanted: &[(u32, u32)],
) -> Result<(), Fail> {
    let mut found = Vec::new(alloc);
    if k >= signatures.len() {
        return Err(Fail::new(name));
    }
    signatures.append(k, &mut found)?;
    for pair in wanted {
        check(name, signatures.has(k, *pair))?;
    }
    check(name, !signatures.has(k, (0, 999)))?;
    check(name, found.as_slice() == wanted)
}

/// Fails if the two lists of the example have the same ID although they are different, or different IDs although they
/// are equal. The function also fails if the union of the two lists is wrong.
fn check_row(alloc: Global, signatures: &mut Interner, row: &Row) -> Result<(), Fail> {
    let (name, first, second, same, both) = *row;
    let j = number_of(alloc, signatures, first)?;
    let k = number_of(alloc, signatures, second)?;
    check(name, (j == k) == same)?;
    let union = union_of(alloc, signatures, j, k, &[])?;
    check_list(alloc, name, signatures, union, both)?;
    check_again(alloc, signatures, row, union)
}

/// Computes the union of the two lists of the example in two other ways, and interns the list of all pairs of the
/// union. Fails if at least one of the results does not have the ID `union`.
fn check_again(
    alloc: Global,
    signatures: &mut Interner,
    row: &Row,
    union: u32,
) -> Result<(), Fail> {
    let (name, first, second, _, both) = *row;
    let j = number_of(alloc, signatures, first)?;
    let k = number_of(alloc, signatures, second)?;
    check(name, union_of(alloc, signatures, k, j, &[])? == union)?;
    check(
        name,
        union_of(alloc, signatures, EMPTY, j, second)? == union,
    )?;
    check(name, number_of(alloc, signatures, both)? == union)
}

/// Tests all examples with the same table of lists, so that some lists of later examples are already in the table.
fn check_rows(alloc: Global, signatures: &mut Interner) -> Result<(), Fail> {
    for row in &ROWS {
        check_row(alloc, signatures, row)?;
    }
    Ok(())
}

#[test]
fn equal_lists_have_one_number(rt: HostRuntime) -> Result<(), Fail> {
    let mut signatures = Interner::new(rt.alloc(), 1)?;
    check_rows(rt.alloc(), &mut signatures)
}

/// Adds 200 pairs to a list, one after the other. The list becomes so long that it is stored as a tree of several
/// levels. Fails if at least one of the resulting lists does not consist of the pairs that were added, or if the list
/// that is made from all 200 pairs at once has another ID.
fn check_growth(alloc: Global, signatures: &mut Interner) -> Result<(), Fail> {
    let mut whole = Vec::new(alloc);
    let mut last = EMPTY;
    for number in 0..200u32 {
        whole.push((number, 0))?;
        last = union_of(alloc, signatures, EMPTY, last, &[(number, 0)])?;
        check_list(alloc, "as many as were added", signatures, last, &whole)?;
    }
    check(
        "made at once",
        number_of(alloc, signatures, &whole)? == last,
    )
}

#[test]
fn a_list_grows_by_a_pair(rt: HostRuntime) -> Result<(), Fail> {
    let mut signatures = Interner::new(rt.alloc(), 1)?;
    check_growth(rt.alloc(), &mut signatures)
}

/// Makes lists, removes all of them from the table, so that only the empty list remains, and makes the same lists
/// again. Fails if other lists remain, if `check_growth` fails for the first lists or for the new lists, or if the list
/// of the single pair (0, 0) does not have the ID 1.
fn check_clear(alloc: Global, signatures: &mut Interner) -> Result<(), Fail> {
    check_growth(alloc, signatures)?;
    signatures.clear();
    check("the empty list alone", signatures.len() == 1)?;
    check_growth(alloc, signatures)?;
    check(
        "the first number again",
        number_of(alloc, signatures, &[(0, 0)])? == 1,
    )
}

#[test]
fn what_is_forgotten_is_numbered_anew(rt: HostRuntime) -> Result<(), Fail> {
    let mut signatures = Interner::new(rt.alloc(), 1)?;
    check_clear(rt.alloc(), &mut signatures)
}

/// Makes a list of the 40 pairs `(step * k % 41, 0)` for k from 1 to 40, with each pair twice. Fails if `order` does
/// not put this list into ascending order without repetition. Before it is sorted, the list is ascending, except at
/// `step - 1` positions where the next pair is smaller.
fn check_order(alloc: Global, step: u32) -> Result<(), Fail> {
    let mut pairs = Vec::new(alloc);
    let mut wanted = Vec::new(alloc);
    for k in 1..41u32 {
        let pair = (step.wrapping_mul(k) % 41, 0);
        pairs.push(pair)?;
        pairs.push(pair)?;
        wanted.push((k, 0))?;
    }
    let found = ordered(alloc, &pairs)?;
    check("a long list", found.as_slice() == wanted.as_slice())
}

#[test]
fn long_lists_are_put_in_order(rt: HostRuntime) -> Result<(), Fail> {
    for step in 1..41u32 {
        check_order(rt.alloc(), step)?;
    }
    Ok(())
}
