//! This module contains theorems about reading a complete input or a complete hide list (the labels to hide), rather
//! than a single line. There is exactly one way to divide an input into lines. Each input either can be read as exactly
//! one system, or has exactly one first error. No input can be read as a system and has a first error. In the same way,
//! each hide list either can be read as exactly one list of labels, or has exactly one first error. Each theorem is
//! stated as the contract of a function with an empty body.
ghost use Rattle.std.specs.Prelude.{◌≡◌, ◌≢◌, ◌⊎◌, ◌↔◌, ℕ, ◌≤◌, List, [], ◌∷◌, ◌++◌, length};
ghost use Rattle.theory.specs.System.{System, Hide};
ghost use Rattle.autfmt.specs.declared.fault.Fault.{Fault};
ghost use Rattle.autfmt.specs.declared.fault.Fault.TheVariants.{ExtraText, LineTooLong, MissingEdges, TooManyHidden};
ghost use Rattle.autfmt.specs.Bounds.{Bounds};
ghost use Rattle.autfmt.specs.Texts.{IsOneLine, lines_of, Lines, Reads};
ghost use Rattle.autfmt.specs.Faults.{FirstFault, JudgedFault};
ghost use Rattle.autfmt.specs.HideLists.{HideReads, FirstHideFault, JudgedHideFault};
ghost use Rattle.autfmt.specs.HideReaders.{SameLabels};
ghost use Rattle.autfmt.specs.Readers.{HasGoodHeader};

/// Every input can be divided into lines in exactly one way (`Lines`). The empty input has no lines. If an input is not
/// empty and contains no line feed, then it consists of one line. If a line and a line feed are put in front of an
/// input, then this line is put in front of the lines of the input. These three facts determine the lines of every
/// input.
pub fn a_text_has_its_lines()
    ensures some { (text : List ℕ) → (lines : List (List ℕ)) × Lines text lines }
    ensures one { (text : List ℕ) (k l : List (List ℕ)) → Lines text k → Lines text l → k ≡ l }
    ensures empty { Lines [] [] }
    ensures last { (line : List ℕ) → IsOneLine line → 1 ≤ length line → Lines line (line ∷ []) }
    ensures first { (line text : List ℕ) → IsOneLine line →
        Lines (line ++ 10 ∷ text) (line ∷ lines_of text) }
{}

/// Every input can be read as at most one system. Every input has at most one first error (`FirstFault`).
pub fn a_text_has_one_reading()
    ensures system { (bounds : Bounds) (text : List ℕ) (A B : System) →
        Reads bounds text A → Reads bounds text B → A ≡ B }
    ensures fault { (bounds : Bounds) (text : List ℕ) (f g : Fault) →
        FirstFault bounds text f → FirstFault bounds text g → f ≡ g }
{}

/// An input can be read as a system if and only if the input has no first error (`FirstFault`). If an input can be read
/// as a system, its line 1 is a correct header.
pub fn a_text_reads_or_has_a_fault()
    ensures one { (bounds : Bounds) (text : List ℕ) →
        ((A : System) × Reads bounds text A) ⊎ ((f : Fault) × FirstFault bounds text f) }
    ensures not_both { (bounds : Bounds) (text : List ℕ) (A : System) (f : Fault) →
        Reads bounds text A → ¬ FirstFault bounds text f }
    ensures none { (bounds : Bounds) (text : List ℕ) →
        ((f : Fault) → ¬ FirstFault bounds text f) ↔ ((A : System) × Reads bounds text A) }
    ensures header { (bounds : Bounds) (text : List ℕ) (A : System) → Reads bounds text A →
        HasGoodHeader bounds text }
{}

/// Suppose that the bytes that have been read so far are enough to show that the input has a certain first error
/// (`JudgedFault`). Then the whole input has this first error, whatever bytes follow. Now suppose that an input
/// consists of exactly the bytes that have been read, and that this input has a first error. If the error is that a
/// line is too long, or that there is a line after the last transition that the header declares, then these bytes are
/// enough to show this error. The bytes that have been read are also enough to show the error if they end with a line
/// feed, and the error is not `MissingEdges` (transitions are missing).
pub fn a_judged_fault_is_the_first()
    ensures first { (bounds : Bounds) (given more : List ℕ) (f : Fault) →
        JudgedFault bounds given f → FirstFault bounds (given ++ more) f }
    ensures ended { (bounds : Bounds) (front : List ℕ) (f : Fault) →
        FirstFault bounds (front ++ 10 ∷ []) f → ((found : ℕ) → f ≢ MissingEdges found) →
        JudgedFault bounds (front ++ 10 ∷ []) f }
    ensures long { (bounds : Bounds) (given : List ℕ) (k : ℕ) →
        FirstFault bounds given (LineTooLong k) → JudgedFault bounds given (LineTooLong k) }
    ensures extra { (bounds : Bounds) (given : List ℕ) (k : ℕ) →
        FirstFault bounds given (ExtraText k) → JudgedFault bounds given (ExtraText k) }
{}

/// A hide list (the labels to hide, one on each line) can be read as at most one list of labels. A hide list has at
/// most one first error (`FirstHideFault`).
pub fn a_hide_list_has_one_reading()
    ensures labels { (text : List ℕ) (H K : List (List ℕ)) → HideReads text H →
        HideReads text K → H ≡ K }
    ensures fault { (text : List ℕ) (f g : Fault) → FirstHideFault text f →
        FirstHideFault text g → f ≡ g }
{}

/// A hide list (the labels to hide, one on each line) can be read as a list of labels if and only if the hide list has
/// no first error (`FirstHideFault`).
pub fn a_hide_list_reads_or_has_a_fault()
    ensures one { (text : List ℕ) →
        ((H : List (List ℕ)) × HideReads text H) ⊎ ((f : Fault) × FirstHideFault text f) }
    ensures not_both { (text : List ℕ) (H : List (List ℕ)) (f : Fault) →
        HideReads text H → ¬ FirstHideFault text f }
    ensures none { (text : List ℕ) →
        ((f : Fault) → ¬ FirstHideFault text f) ↔ ((H : List (List ℕ)) × HideReads text H) }
{}

/// Suppose that the bytes that have been read so far are enough to show that the hide list (the labels to hide) has a
/// certain first error (`JudgedHideFault`). Then the whole hide list has this first error, whatever bytes follow. Now
/// suppose that a hide list consists of exactly the bytes that have been read, and that this hide list has a first
/// error. If the error is that a line is too long, or that there are too many lines, then these bytes are enough to
/// show this error. The bytes that have been read are also enough to show the error if they end with a line feed.
pub fn a_judged_hide_fault_is_the_first()
    ensures first { (given more : List ℕ) (f : Fault) → JudgedHideFault given f →
        FirstHideFault (given ++ more) f }
    ensures ended { (front : List ℕ) (f : Fault) →
        FirstHideFault (front ++ 10 ∷ []) f → JudgedHideFault (front ++ 10 ∷ []) f }
    ensures long { (given : List ℕ) (k : ℕ) →
        FirstHideFault given (LineTooLong k) → JudgedHideFault given (LineTooLong k) }
    ensures extra { (given : List ℕ) → FirstHideFault given TooManyHidden →
        JudgedHideFault given TooManyHidden }
{}

/// Suppose that two hide lists contain the same labels, in any order and with any repetitions. Then hiding the labels
/// of one list in a system has the same result as hiding the labels of the other list. If a hide list is empty, hiding
/// its labels does not change the system.
pub fn hiding_depends_on_the_labels()
    ensures same { (H K : List (List ℕ)) (A : System) → SameLabels H K → Hide H A ≡ Hide K A }
    ensures none { (A : System) → Hide [] A ≡ A }
{}
