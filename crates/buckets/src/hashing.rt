//! Defines the hash of a pair of numbers. Callers use this hash to compute tags (hashes of 32 bits).
ghost use Rattle.std.specs.Prelude.{◌≡◌};
ghost use Rattle.buckets.specs.Hashing.{hash_of};

const FIRST_FACTOR: u64 = 0x9E37_79B9_7F4A_7C15;

const SUM_FACTOR: u64 = 0xD6E8_FEB8_6659_FD93;

/// Returns a hash of the numbers `first` and `second`. The function adds 1 to `first`, multiplies the sum by a
/// constant, and adds `second`. The lower 64 bits of the result are then multiplied by another constant. The hash is
/// the exclusive or of the upper and the lower half of the product, which has 128 bits. If the hash were only the lower
/// half of the product, the sum of the hashes of two pairs of numbers would depend only on the sum of their first
/// numbers and on the sum of their second numbers.
///
/// If 1 were not added to `first`, the hash would be worse when `first` is 0 and `second` is small: the upper half of
/// the product would be small too, and the hash would depend almost linearly on `second`.
#[tactic(auto, unfolding(crate::specs::Hashing::hash_of))]
pub fn hash(first: u32, second: u64) -> u64
    ensures { result ≡ hash_of (first, second) }
{
    let number = (u64::from(first) + 1)
        .wrapping_mul(FIRST_FACTOR)
        .wrapping_add(second);
    let product = number as u128 * SUM_FACTOR as u128;
    (product % 0x1_0000_0000_0000_0000) as u64 ^ (product >> 64) as u64
}
