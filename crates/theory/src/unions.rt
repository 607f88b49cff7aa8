//! Theorems about the disjoint union of two systems. A state t of the second system has the number `n + t` in the
//! union, where n is the number of states of the first system.

ghost use Rattle.std.specs.Prelude.{◌≡◌, ◌↔◌, ℕ, ◌+◌, ◌<◌};
ghost use Rattle.theory.specs.System.{System, IsSystem};
ghost use Rattle.theory.specs.Bisimulation.{Bisimilar, Equivalent};
ghost use Rattle.theory.specs.declared.relation.Relation.{Relation};
ghost use Rattle.theory.specs.Blocks.{Turns, EachTwo};
ghost use Rattle.theory.specs.Alike.{SameSteps};
ghost use Rattle.theory.specs.Union.{union_of};

/// The union of two well-formed systems is a well-formed system.
pub fn the_union_is_a_system()
    ensures { (A B : System) → IsSystem A → IsSystem B → IsSystem (union_of A B) }
{}

/// In the union of A and B, a state s of A is represented by the state s, and a state t of B is represented by the
/// state `A.states + t`. Each state is bisimilar to the state that represents it. Two states are bisimilar if and only
/// if the states that represent them are bisimilar. The two states may belong to different systems or to the same
/// system.
pub fn the_union_keeps_bisimilarity()
    ensures across { (rel : Relation) (A B : System) (s t : ℕ) → IsSystem A → IsSystem B →
        s < A.states → t < B.states →
        Bisimilar rel A s B t ↔ Bisimilar rel (union_of A B) s (union_of A B) (A.states + t) }
    ensures first { (rel : Relation) (A B : System) (s t : ℕ) → IsSystem A → IsSystem B →
        s < A.states → t < A.states →
        Bisimilar rel A s A t ↔ Bisimilar rel (union_of A B) s (union_of A B) t }
    ensures second { (rel : Relation) (A B : System) (s t : ℕ) → IsSystem A → IsSystem B →
        s < B.states → t < B.states →
        Bisimilar rel B s B t ↔ Bisimilar rel (union_of A B) (A.states + s) (union_of A B)
        (A.states + t) }
    ensures in_first { (rel : Relation) (A B : System) (s : ℕ) → IsSystem A →
        IsSystem B → s < A.states →
        Bisimilar rel A s (union_of A B) s }
    ensures in_second { (rel : Relation) (A B : System) (t : ℕ) → IsSystem A →
        IsSystem B → t < B.states →
        Bisimilar rel B t (union_of A B) (A.states + t) }
{}

/// Two systems are equivalent if and only if their first states are bisimilar in their union.
///
/// `U` is any system with the steps of the union. If the blocks of `U` are the classes of bisimilar states, then the
/// two systems are equivalent if and only if their first states share a block. Refinement makes the same number of
/// splits for `U` and for the union.
pub fn the_union_decides_equivalence()
    ensures states { (A B U : System) → IsSystem A → IsSystem B → SameSteps U (union_of A B) →
        (A.first < U.states) × (A.states + B.first < U.states) }
    ensures bisimilar { (rel : Relation) (A B U : System) → IsSystem A → IsSystem B →
        SameSteps U (union_of A B) →
        Equivalent rel A B ↔ Bisimilar rel U A.first U (A.states + B.first) }
    ensures blocks { (rel : Relation) (A B U : System) (blocks : ℕ → ℕ) → IsSystem A → IsSystem B →
        SameSteps U (union_of A B) →
        EachTwo U (λ s t. (blocks s ≡ blocks t) ↔ Bisimilar rel U s U t) →
        Equivalent rel A B ↔ (blocks A.first ≡ blocks (A.states + B.first)) }
    ensures turns { (rel : Relation) (A B U : System) (k : ℕ) → SameSteps U (union_of A B) →
        Turns rel U k → Turns rel (union_of A B) k }
    ensures same { (A B : System) → A ≡ B → SameSteps A B }
{}
