//! Theorems about refinement as a whole: repeated splits of the partition with one block lead to the classes of
//! bisimilar states. A split (`Split`) divides each block by the signatures of its states.

ghost use Rattle.std.specs.Prelude.{◌≡◌, ◌↔◌, ℕ, suc, ◌≤◌, ◌<◌};
ghost use Rattle.theory.specs.System.{System, IsSystem};
ghost use Rattle.theory.specs.Bisimulation.{Bisimilar};
ghost use Rattle.theory.specs.declared.relation.Relation.{Relation};
ghost use Rattle.theory.specs.Blocks.{OneBlock, Split, SameBlocks, After, Turns, Underway, EachTwo};

/// Every partition into blocks can be split by signatures: some partition results from the split.
pub fn split_exists()
    ensures { (rel : Relation) (A : System) (old : ℕ → ℕ) → IsSystem A → (new : ℕ → ℕ)
        × Split rel A old new }
{}

/// When a system is refined, there is a first split that changes nothing. Let k be the number of splits up to and
/// including this split (`Turns`). Then k is at most the number of states. For a given system and relation, k is
/// unique.
pub fn turns_exist()
    ensures found { (rel : Relation) (A : System) → IsSystem A → (k : ℕ) × Turns rel A k
        × (k ≤ A.states) }
    ensures unique { (rel : Relation) (A : System) (j k : ℕ) → Turns rel A j →
        Turns rel A k → j ≡ k }
{}

/// This contract says how refinement proceeds. Refinement begins with one block. As long as each split has changed
/// something, the number of splits is less than the number of states. The first split that changes nothing is the last
/// split.
pub fn refinement_goes_on()
    ensures begun { (rel : Relation) (A : System) (blocks : ℕ → ℕ) →
        IsSystem A → OneBlock A blocks → Underway rel A 0 blocks }
    ensures below { (rel : Relation) (A : System) (k : ℕ) (blocks : ℕ → ℕ) →
        IsSystem A → Underway rel A k blocks → k < A.states }
    ensures more { (rel : Relation) (A : System) (k : ℕ) (old new : ℕ → ℕ) →
        IsSystem A → Underway rel A k old → Split rel A old new → ¬ SameBlocks A old new →
        Underway rel A (suc k) new }
    ensures done { (rel : Relation) (A : System) (k : ℕ) (old new : ℕ → ℕ) →
        IsSystem A → Underway rel A k old → Split rel A old new → SameBlocks A old new →
        Turns rel A (suc k) }
{}

/// After the last split, two states share a block if and only if they are bisimilar.
pub fn final_blocks_are_bisimilarity()
    ensures { (rel : Relation) (A : System) (k : ℕ) (blocks : ℕ → ℕ) →
        IsSystem A → Turns rel A k → After rel A k blocks →
        EachTwo A (λ s t. (blocks s ≡ blocks t) ↔ Bisimilar rel A s A t) }
{}

/// Strong and branching bisimilarity are equivalence relations on the states of a system.
pub fn bisimilarity_is_an_equivalence()
    ensures reflexive { (rel : Relation) (A : System) (s : ℕ) → IsSystem A → s < A.states →
        Bisimilar rel A s A s }
    ensures symmetric { (rel : Relation) (A : System) (s t : ℕ) → IsSystem A →
        Bisimilar rel A s A t → Bisimilar rel A t A s }
    ensures transitive { (rel : Relation) (A : System) (s t u : ℕ) → IsSystem A →
        Bisimilar rel A s A t → Bisimilar rel A t A u → Bisimilar rel A s A u }
{}

/// If two states of a system are bisimilar to the same state of another system, then they share a block after the last
/// split, and they are bisimilar to each other.
pub fn related_to_one_state_share()
    ensures share { (rel : Relation) (A B : System) (k : ℕ) (blocks : ℕ → ℕ) (s t x : ℕ) →
        IsSystem A → Turns rel A k → After rel A k blocks →
        Bisimilar rel A s B x → Bisimilar rel A t B x → blocks s ≡ blocks t }
    ensures bisimilar { (rel : Relation) (A B : System) (s t x : ℕ) → IsSystem A →
        Bisimilar rel A s B x → Bisimilar rel A t B x → Bisimilar rel A s A t }
{}
