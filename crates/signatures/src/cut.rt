//! Computes the split point of a list of pairs, which is the number at which the list is divided into two halves. To
//! compare a pair (x, y) with the split point, the pair is represented by the number x * 2^32 + y. The first half
//! contains the pairs that are less than the split point, and the second half contains all other pairs.
ghost use Rattle.std.specs.Prelude.{◌≡◌, ℕ, ◌<◌};
ghost use Rattle.std.specs.List.Sorted.{IsStrictlySortedBy};
ghost use Rattle.signatures.specs.Lists.{pair_cmp};
ghost use Rattle.signatures.specs.Cuts.{pair_value, Fit, IsParted, IsCutPoint};

/// Returns the number that represents the pair: its first component times 2^32, plus its second component. Comparing
/// two of these numbers gives the same result as comparing the two pairs.
#[inline(always)]
pub(crate) fn key(pair: (u32, u32)) -> u64
    ensures { result ≡ pair_value pair }
{
    u64::from(pair.0) * 0x1_0000_0000 + u64::from(pair.1)
}

/// This call is a lemma: it changes nothing at run time. Its contract states that the second component of each pair is
/// less than 2^32. This is true because the type of the component is `u32`.
#[inline(always)]
pub(crate) fn fit(pairs: &[(u32, u32)])
    ensures { Fit pairs.now }
{
    for (_, second) in pairs {
        let _number = *second;
    }
}

/// Suppose that each pair of a list is represented by a number (`key`), that `low` is the number for the first pair,
/// and that `high` is the number for the last pair. Then this function returns the split point of the list, which is
/// the number at which the list is divided into two halves. Among all numbers that are greater than `low` and at most
/// `high`, the split point is the number that is divisible by the highest power of two.
#[inline(always)]
pub(crate) fn cut(low: u64, high: u64) -> u64
    requires { low < high }
    ensures { (bit : ℕ) × IsCutPoint bit low high result }
{
    let bit = 63 - (low ^ high).leading_zeros();
    (high >> bit) << bit
}

/// Divides the list `pairs` into two parts at the number `cut`. To compare a pair with `cut`, the pair is represented
/// by a number (`key`). The first part contains the pairs that are less than `cut`, and the second part contains the
/// pairs that are at least `cut`.
pub(crate) fn parted(pairs: &[(u32, u32)], cut: u64) -> (&[(u32, u32)], &[(u32, u32)])
    requires ascending { IsStrictlySortedBy pair_cmp pairs.now }
    requires fit { Fit pairs.now }
    ensures { IsParted pairs.now cut result.0.now result.1.now }
{
    pairs.split_at(pairs.partition_point(|pair| key(*pair) < cut))
}
