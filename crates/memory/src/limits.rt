//! The limits on the size of a system in memory. These limits are twice as large as the limits on the size of a system
//! in a file. Therefore the union of two systems that were read from files does not exceed them.

/// The largest number of states of a system. An input file may have at most half as many states.
pub const MOST_STATES: u32 = 2_000_000;

/// The largest number of transitions of a system. An input file may have at most half as many transitions.
pub const MOST_TRANSITIONS: u32 = 20_000_000;

/// The largest number of labels in a label table. This number is so large that each transition may have a label of its
/// own.
pub const MOST_LABELS: u32 = 20_000_000;
