//! This module contains theorems about the text that is written for a system. Each theorem is stated as the contract of
//! a function with an empty body.
ghost use Rattle.std.specs.Prelude.{◌≡◌, ℕ, ◌≤◌, List, length};
ghost use Rattle.theory.specs.System.{System, IsSystem};
ghost use Rattle.autfmt.specs.Bounds.{Bounds, IsWithinFile};
ghost use Rattle.autfmt.specs.Texts.{Reads};
ghost use Rattle.autfmt.specs.Written.{Text, IsInWrittenOrder, listed};

/// For each system, there is at most one text that may be written for it.
pub fn text_is_one()
    ensures { (A : System) (t u : List ℕ) → Text A t → Text A u → t ≡ u }
{}

/// Suppose that a well-formed system A is within some limits on states and transitions, and that these limits do not
/// exceed the limits for files. Let B be the system A with its transitions sorted in the order in which they are
/// written. Then the text that is written for A denotes B.
pub fn text_is_read_again()
    ensures { (bounds : Bounds) (A B : System) →
        IsWithinFile bounds → IsSystem A → A.states ≤ bounds.states →
        length A.transitions ≤ bounds.transitions →
        IsInWrittenOrder A B → Reads bounds (listed B) B }
{}
