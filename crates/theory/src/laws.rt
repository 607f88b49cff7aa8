//! Four theorems about splitting a partition by signatures, for strong and for branching bisimilarity.
//!
//! Blocks are closed under silent paths (`Kept`) if every silent path that begins and ends in a block stays in this
//! block. For strong bisimilarity, this condition is always satisfied.

ghost use Rattle.std.specs.Prelude.{◌≡◌, ◌↔◌, ℕ, List};
ghost use Rattle.theory.specs.System.{System, IsSystem};
ghost use Rattle.theory.specs.Bisimulation.{IsBisimulation, Pairs};
ghost use Rattle.theory.specs.declared.relation.Relation.{Relation};
ghost use Rattle.theory.specs.Blocks.{OneBlock, Kept, Split, Stable, Share};

/// A partition with a single block is closed under silent paths: every silent path that begins and ends in the block
/// stays in the block.
pub fn one_block_is_kept()
    ensures { (rel : Relation) (A : System) (blocks : ℕ → ℕ) → IsSystem A → OneBlock A blocks →
        Kept rel A blocks }
{}

/// Blocks are closed under silent paths if every silent path that begins and ends in a block stays in this block. If
/// the blocks before a split are closed under silent paths, then the blocks after the split are closed under silent
/// paths.
pub fn splitting_keeps()
    ensures { (rel : Relation) (A : System) (old new : ℕ → ℕ) →
        IsSystem A → Kept rel A old → Split rel A old new → Kept rel A new }
{}

/// Let R be the relation that a list of pairs defines, and suppose that R is a bisimulation. Suppose also that the
/// blocks are closed under silent paths (`Kept`), and that any two states that R relates share a block before a split.
/// Then any two states that R relates share a block after the split.
pub fn bisimulations_survive()
    ensures { (rel : Relation) (A : System) (old new : ℕ → ℕ) (pairs : List (ℕ × ℕ)) →
        IsSystem A → Kept rel A old → Split rel A old new →
        IsBisimulation rel A A (Pairs pairs) →
        ((s t : ℕ) → Pairs pairs s t → Share A old s t) →
        (s t : ℕ) → Pairs pairs s t → Share A new s t }
{}

/// A partition is stable if any two states that share a block have equal signatures. If a partition is stable, the list
/// of all pairs of states that share a block is a bisimulation.
pub fn stable_is_bisimulation()
    ensures { (rel : Relation) (A : System) (blocks : ℕ → ℕ) (pairs : List (ℕ × ℕ)) →
        IsSystem A → Stable rel A blocks →
        ((s t : ℕ) → Pairs pairs s t ↔ Share A blocks s t) →
        IsBisimulation rel A A (Pairs pairs) }
{}
