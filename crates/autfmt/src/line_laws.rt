//! This module contains theorems about lines of an input. Each theorem is stated as the contract of a function with an
//! empty body.

ghost use Rattle.std.specs.Prelude.{◌≡◌, ℕ, List};
ghost use Rattle.autfmt.specs.Grammar.{Header, TransitionLine, HideLine};

/// Each line can be read in at most one way as a header, in at most one way as a transition, and in at most one way as
/// a line of a hide list (the labels to hide). No line is both a header and a transition.
pub fn a_line_has_one_reading()
    ensures header { (line : List ℕ) (f m n f' m' n' : ℕ) → Header line f m n
        → Header line f' m' n' → (f ≡ f') × (m ≡ m') × (n ≡ n') }
    ensures transition { (line : List ℕ) (s t s' t' : ℕ) (a a' : List ℕ) → TransitionLine line s a t
        → TransitionLine line s' a' t' → (s ≡ s') × (a ≡ a') × (t ≡ t') }
    ensures hide_line { (line a a' : List ℕ) → HideLine line a → HideLine line a' → a ≡ a' }
    ensures not_both { (line : List ℕ) (f m n s t : ℕ) (a : List ℕ) → Header line f m n
        → ¬ TransitionLine line s a t }
{}
