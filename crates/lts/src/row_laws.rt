//! A theorem about the rows of a system, where the row of a state is the list of its outgoing transitions. The theorem
//! is stated as the contract of a function that does nothing at run time.
ghost use Rattle.std.specs.Prelude.{◌≡◌, ℕ, ◌+◌, ◌-◌, ◌<◌, ◌≤◌, List, [], ◌∷◌, ◌++◌, length, take};
ghost use Rattle.lts.specs.Lts.{Triple, row_of, before, place_at, Grouped, IsLts, IsRow};

/// The row of a state is the list of its outgoing transitions, and the place of a transition is its index in the list
/// of all transitions. In this list, the rows of the states follow each other without gaps. The row of the state 0
/// begins at the place 0, and the row of the last state ends after the last place. The row of a state, which is a list,
/// contains the transitions in ascending order of their places.
pub fn rows_follow()
    ensures none { (places : List Triple) → before 0 places ≡ 0 }
    ensures next { (s : ℕ) (places : List Triple) →
        before (s + 1) places ≡ before s places + length (row_of s places) }
    ensures up { (s t : ℕ) (places : List Triple) → s ≤ t → before s places ≤ before t places }
    ensures all { (l : Grouped) → IsLts l → before l.states l.places ≡ length l.places }
    ensures inside { (places : List Triple) (s start end k : ℕ) → IsRow places s start end →
        start ≤ k → k < end →
        take ((k + 1) - start) (row_of s places)
        ≡ take (k - start) (row_of s places) ++ place_at places k ∷ [] }
{}
