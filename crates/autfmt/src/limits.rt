//! The limits on the numbers of states and transitions that a header may declare.
ghost use Rattle.std.specs.Prelude.{◌≡◌, ◌↔◌, IsSome, IfSome};
ghost use Rattle.autfmt.specs.Bounds.{Bounds, bounds, file_bounds, IsWithinFile};

use std::marker::Model;

/// The largest number of states that a file may have.
pub(crate) const FILE_STATES: u32 = 1_000_000;

/// The largest number of transitions that a file may have.
pub(crate) const FILE_TRANSITIONS: u32 = 10_000_000;

/// The largest number of lines that a hide list (the labels to hide) may have.
pub(crate) const MOST_LINES: u32 = 100_000;

/// The largest numbers of states and transitions that a header may declare.
#[derive(Clone, Copy, Debug)]
pub struct Limits {
    states: u32,
    transitions: u32,
}

impl Model for Limits {
    ghost Value = { Bounds };

    ghost view = { λ l. bounds l.states l.transitions };

    ghost inverse = { λ b. record { states = b.states; transitions = b.transitions } };

    ghost invariant = { λ l. IsWithinFile (bounds l.states l.transitions) };
}

impl Limits {
    /// Makes the limits that allow a header to declare at most `states` states and at most `transitions` transitions.
    /// The number `states` must be between 1 and 1,000,000, and the number `transitions` must be between 0 and
    /// 10,000,000. For other numbers, the result is `None`.
    pub fn new(states: u32, transitions: u32) -> Option<Limits>
        ensures fits { IsSome result ↔ IsWithinFile (bounds states transitions) }
        ensures limits { IfSome result (λ l. l ≡ bounds states transitions) }
    {
        if states == 0 || states > FILE_STATES || transitions > FILE_TRANSITIONS {
            return None;
        }
        Some(Limits {
            states,
            transitions,
        })
    }

    /// Returns the limits that apply to files: 1,000,000 states and 10,000,000 transitions.
    pub fn file() -> Limits
        ensures { result ≡ file_bounds }
    {
        Limits {
            states: FILE_STATES,
            transitions: FILE_TRANSITIONS,
        }
    }

    /// This function does nothing when it runs. The contract of this function states that the limits allow at least one
    /// state, and do not exceed the limits for files.
    pub fn invariants(&self)
        ensures { IsWithinFile self.now }
    {
        let _ = &self.states;
    }

    /// Returns the largest number of states that a header may declare. This result is between 1 and 1,000,000.
    pub fn states(&self) -> u32
        ensures states { result ≡ self.now.states }
        ensures within { IsWithinFile self.now }
    {
        self.states
    }

    /// Returns the largest number of transitions that a header may declare. This result is between 0 and 10,000,000.
    pub fn transitions(&self) -> u32
        ensures transitions { result ≡ self.now.transitions }
        ensures within { IsWithinFile self.now }
    {
        self.transitions
    }
}
