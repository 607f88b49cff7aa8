//! Tests how evenly lists of pairs are distributed over the buckets of the hash table that stores these lists.
ghost use Rattle.std.specs.Prelude.{◌≡◌, ◌<◌, ◌^◌, length};
ghost use Rattle.signatures.specs.Hashed.{fingerprint_of, tag_of};
ghost use Rattle.buckets.specs.Chains.{bucket_of_tag};

use buckets::{bucket, hash};
use std::test::Fail;
use test_support::check;

/// The number of labels. The test makes lists for each combination of two labels.
const LABELS: u32 = 40;

/// The number of blocks. For each combination of three blocks, a test makes a list of three pairs, one pair for each
/// block. All three pairs have the same label.
const BLOCKS: u32 = 72;

/// The number of lists that a test makes for each combination of two labels. The number of buckets in the hash table is
/// equal to this number.
const LISTS: u32 = 1 << 16;

/// The tag of a list is the hash value of the list. To compute the tag, the sum of the hash values of the pairs is
/// multiplied by this factor.
const TAG_FACTOR: u64 = 0xC2B2_AE3D_27D4_EB4F;

/// Returns the bucket of the list in a hash table with `buckets` buckets.
pub(crate) fn list_bucket(list: &[(u32, u32)], buckets: usize) -> usize
    requires some { 0 < buckets }
    requires few { buckets < 2 ^ 32 }
    ensures value { result ≡ bucket_of_tag buckets (tag_of list.now) }
    ensures below { result < buckets }
{
    let tag = fingerprint(list).wrapping_mul(TAG_FACTOR) / 0x1_0000_0000;
    bucket(tag as u32, buckets)
}

/// Returns the fingerprint of the list, which is the sum of the hash values of its pairs.
fn fingerprint(list: &[(u32, u32)]) -> u64
    ensures { result ≡ fingerprint_of list.now }
{
    let mut sum: u64 = 0;
    for (first, second) in list {
        sum = sum.wrapping_add(hash(*first, u64::from(*second)));
    }
    sum
}

/// Adds the list to its bucket. Returns the number of lists that were in this bucket before. A lookup of the added list
/// passes all these lists.
fn passed_by(counts: &mut [u32], list: &[(u32, u32)]) -> u64
    requires some { 0 < length counts.old }
    requires few { length counts.old < 2 ^ 32 }
    ensures { length counts.new ≡ length counts.old }
{
    let bucket = list_bucket(list, counts.len());
    let passed = counts[bucket];
    counts[bucket] = passed.saturating_add(1);
    u64::from(passed)
}

/// Adds the lists `{(first, x), (second, x)}` for all x to their buckets. The slice `counts` contains the number of
/// lists in each bucket. A lookup of a list passes the lists that were added to its bucket before. Returns the total
/// number of lists that the lookups pass, if each added list is looked up once.
fn passed(counts: &mut [u32], first: u32, second: u32) -> u64
    requires some { 0 < length counts.old }
    requires few { length counts.old < 2 ^ 32 }
    ensures { length counts.new ≡ length counts.old }
{
    counts.fill(0);
    let mut passed: u64 = 0;
    for x in 0..LISTS {
        passed = passed.saturating_add(passed_by(counts, &[(first, x), (second, x)]));
    }
    passed
}

/// A lookup of a list passes the lists that were added to the same bucket before. The check fails if, for the label
/// `second` and some smaller label, a lookup passes more than one list on average. If the lists were distributed over
/// the buckets at random, a lookup would pass half a list on average.
fn check_label(counts: &mut [u32], second: u32) -> Result<(), Fail>
    requires some { 0 < length counts.old }
    requires few { length counts.old < 2 ^ 32 }
    ensures { length counts.new ≡ length counts.old }
{
    for first in 0..second {
        check(
            "lists of two labels",
            passed(counts, first, second) <= u64::from(LISTS),
        )?;
    }
    Ok(())
}

/// Makes all lists of three pairs such that each pair has the label `label`, and the greatest pair is `(label, x)`.
/// Adds each list to its bucket. A lookup of a list passes the lists that were added to its bucket before. Returns the
/// total number of lists that the lookups pass, if each added list is looked up once.
fn passed_below(counts: &mut [u32], label: u32, x: u32) -> u64
    requires some { 0 < length counts.old }
    requires few { length counts.old < 2 ^ 32 }
    ensures { length counts.new ≡ length counts.old }
{
    let mut passed: u64 = 0;
    for y in 0..x {
        for z in 0..y {
            let list = [(label, z), (label, y), (label, x)];
            passed = passed.saturating_add(passed_by(counts, &list));
        }
    }
    passed
}

#[test]
fn lists_of_one_label_are_spread(rt: HostRuntime) -> Result<(), Fail> {
    let mut counts = Vec::new(rt.alloc());
    counts.resize(LISTS as usize, 0u32)?;
    let mut passed: u64 = 0;
    for x in 0..BLOCKS {
        passed = passed.saturating_add(passed_below(&mut counts, 0, x));
    }
    check("lists of the first label", passed <= u64::from(LISTS))
}

#[test]
fn lists_of_two_labels_are_spread(rt: HostRuntime) -> Result<(), Fail> {
    let mut counts = Vec::new(rt.alloc());
    counts.resize(LISTS as usize, 0u32)?;
    for second in 0..LABELS {
        check_label(&mut counts, second)?;
    }
    Ok(())
}
