//! The ways in which an example can end, and the bounds on the numbers of rounds and visits (reads of transitions) that
//! the meter counts for an example.
use autfmt::{SliceSource, Source};
use lts::{Counter, Meter};

/// States whether an example ended with the expected result, with a failed allocation, or in a wrong way.
#[derive(Clone, Copy, PartialEq)]
pub(crate) enum Ending {
    /// The example ended with the expected result.
    Wanted,
    /// An allocation failed. The example ended with an error, and satisfied its contract.
    Refused,
    /// The example ended in another way, which is wrong.
    Wrong,
}

impl Ending {
    /// Combines the ways in which two examples ended. The result is `Wrong` if at least one of the two examples ended
    /// in a wrong way. Otherwise, the result is `Refused` if an allocation failed in at least one of the two examples,
    /// and `Wanted` if both examples ended with the expected result.
    pub(crate) fn and(self, other: Ending) -> Ending {
        match self {
            Ending::Wanted => other,
            Ending::Refused if other == Ending::Wrong => Ending::Wrong,
            _ => self,
        }
    }

    /// Returns the verdict on an example in which no allocation failed. If the result of the example is correct
    /// (`is_right`), the verdict is `Wanted`, and otherwise `Wrong`.
    pub(crate) fn wanted_if(is_right: bool) -> Ending {
        if is_right {
            Ending::Wanted
        } else {
            Ending::Wrong
        }
    }

    /// Returns the verdict on an example in which an allocation failed. If the example satisfied its contract
    /// (`is_right`), the verdict is `Refused`, and otherwise `Wrong`.
    pub(crate) fn refused_if(is_right: bool) -> Ending {
        if is_right {
            Ending::Refused
        } else {
            Ending::Wrong
        }
    }
}

/// Returns true if a part of the input has not been read, and the source (the object from which the input is read) has
/// not failed.
pub(crate) fn has_more(source: &mut SliceSource) -> bool {
    source.failures() == 0 && source.take(&mut [0u8; 1]).unwrap_or(0) == 1
}

/// Returns true if the meter (the counter of rounds and visits) has counted at most `states` rounds and at most
/// `(rounds + more) * transitions` visits, where `rounds` is the number of rounds that the meter has counted.
pub(crate) fn keeps_to(meter: &Counter, states: u32, transitions: u32, more: u128) -> bool {
    let most = meter.rounds().saturating_add(more);
    meter.rounds() <= u128::from(states)
        && meter.visits() <= most.saturating_mul(u128::from(transitions))
}
