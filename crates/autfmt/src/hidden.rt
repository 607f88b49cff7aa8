//! This module stores the list of the labels that a reader hides.
ghost use Rattle.std.specs.Prelude.{◌≡◌, ◌<◌, [], length, Contains, IsSome, MatchOption, OnOk};
ghost use Rattle.theory.specs.System.{IsLabel};
ghost use Rattle.memory.specs.declared.limits.TheConstants.{MOST_LABELS};
ghost use Rattle.lts.specs.Labels.{IsLabelId, Interns};

use lts::{Labels, Memory};
use std::alloc::Global;
use std::marker::Model;

/// The labels that a reader replaces by the internal label `i`.
#[derive(Drop)]
pub struct Hidden {
    labels: Labels,
}

impl Model for Hidden {
    ghost use Rattle.std.specs.Prelude.{ℕ, List};

    ghost Value = { List (List ℕ) };

    ghost view = { λ h. h.labels };
}

impl Hidden {
    /// Returns an empty list, which hides no labels. The call allocates no memory.
    pub fn none(alloc: Global) -> Hidden
        ensures { result ≡ [] }
    {
        Hidden {
            labels: Labels::new(alloc),
        }
    }

    /// Adds a label, unless it is already in the list.
    pub(crate) fn add(&mut self, label: &[u8]) -> Result<(), Memory>
        requires label { IsLabel label.now }
        requires room { length self.old < MOST_LABELS }
        ensures added { OnOk result (Interns self.old label.now self.new) }
    {
        self.labels.intern(label)?;
        Ok(())
    }

    /// Returns the ID of a label in this list, or `None` if the label is not in the list. The argument `guess` is the
    /// ID that the caller expects the label to have. If `guess` is the ID of the label, the function does not search
    /// the list.
    pub(crate) fn find(&self, label: &[u8], guess: u32) -> Option<u32>
        ensures number { MatchOption result (¬ Contains self.now label.now)
            (λ k. IsLabelId self.now k label.now) }
        ensures label { IsSome result → IsLabel label.now }
    {
        if self.labels.len() == 0 {
            return None;
        }
        if self.labels.has(guess, label) {
            return Some(guess);
        }
        self.labels.find(label)
    }
}
