//! Computes two hashes of lists of pairs: the fingerprint, which has 64 bits, and the tag, which has 32 bits.
ghost use Rattle.std.specs.Prelude.{◌≡◌, ◌↔◌, IsTrue};
ghost use Rattle.signatures.specs.Hashed.{fingerprint_of, mixed};

use buckets::hash;

const TAG_FACTOR: u64 = 0xC2B2_AE3D_27D4_EB4F;

/// Computes the fingerprint of a list: the sum of the hashes of its pairs, modulo 2^64. Equal lists have equal
/// fingerprints. Lists that are not equal rarely have equal fingerprints.
pub(crate) fn fingerprint(list: &[(u32, u32)]) -> u64
    ensures { result ≡ fingerprint_of list.now }
{
    let mut sum: u64 = 0;
    for (first, second) in list {
        sum = sum.wrapping_add(hash(*first, u64::from(*second)));
    }
    sum
}

/// Multiplies the number by a constant, modulo 2^64, and returns the upper 32 bits of the product. The number is the
/// fingerprint of a list (a hash of 64 bits), or another hash. Without the multiplication, the results for lists that
/// differ in only a few numbers would be close together.
#[inline(always)]
pub(crate) fn mix(number: u64) -> u32
    ensures { result ≡ mixed number }
{
    (number.wrapping_mul(TAG_FACTOR) / 0x1_0000_0000) as u32
}

/// Returns whether the lists `a` and `b` are equal.
pub(crate) fn are_same(a: &[(u32, u32)], b: &[(u32, u32)]) -> bool
    ensures { IsTrue result ↔ (a.now ≡ b.now) }
{
    a == b
}
