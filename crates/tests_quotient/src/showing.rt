//! Computes results for a system that is given in the short notation of the file `texts`, and compares these results
//! with the expected texts.
use crate::checks::check_text;
use crate::refining::{Made, refine_as};
use crate::texts::system;
use crate::{branching, quotients, reached, strong, systems};
use lts::{Counter, Lts, Memory};
use quotient::Relation;
use refine::{Branching, Strong};
use std::alloc::Global;
use std::test::Fail;

/// Says which text about a system is computed. A test compares this text with the expected text.
#[derive(Clone, Copy, Drop)]
pub(crate) enum Shown {
    /// The result of refinement for strong bisimilarity.
    Strong(Made),
    /// The result of refinement for branching bisimilarity.
    Branching(Made),
    /// The strong signature of state 0 with respect to a single block that contains all states, and the number of
    /// visits (reads of transitions). The call that computes the signature appends it to a buffer that already contains
    /// the given pairs.
    StrongSigned(&'static [(u32, u32)]),
    /// The blocks after one round for branching bisimilarity, and the signature of state 0 with respect to these
    /// blocks. The call that computes the signature appends it to a buffer that already contains another pair.
    BranchingSigned,
    /// Two lines: the blocks after a round for strong bisimilarity, and the blocks after a round for branching
    /// bisimilarity that starts from the blocks of the first line.
    StrongThenBranching,
    /// The number of rounds of the minimisation, and the quotient in the short notation of the file `texts`.
    Quotient(Relation),
    /// The reachable states, and the numbers of rounds and visits (reads of transitions) of the search.
    Reached,
    /// The system in the short notation of the file `texts`, and the numbers of its transitions and labels.
    System,
}

/// An example: its name, its system, and the expected text.
pub(crate) type Row = (&'static str, &'static str, &'static str);

/// Fails if the result for at least one of the systems differs from the expected text.
pub(crate) fn check_rows(alloc: Global, what: Shown, rows: &[Row]) -> Result<(), Fail> {
    for (name, text, wanted) in rows {
        check_row(alloc, what, name, text, wanted)?;
    }
    Ok(())
}

/// Fails if the result for the system differs from the expected text `wanted`. `text` is the system in the short
/// notation of the file `texts`.
pub(crate) fn check_row(
    alloc: Global,
    what: Shown,
    name: &str,
    text: &str,
    wanted: &str,
) -> Result<(), Fail> {
    let found = of_text(alloc, what, text)?;
    check_text(name, &found, wanted)
}

fn of_text(alloc: Global, what: Shown, text: &str) -> Result<String, Fail> {
    let l = system(alloc, text)?;
    Ok(show(alloc, &l, what)?)
}

fn show(alloc: Global, l: &Lts<Counter>, what: Shown) -> Result<String, Memory> {
    match what {
        Shown::Strong(what) => refine_as::<Strong>(alloc, l, what),
        Shown::Branching(what) => refine_as::<Branching>(alloc, l, what),
        Shown::StrongSigned(stood) => strong::signed(alloc, l, stood),
        Shown::BranchingSigned => branching::signed(alloc, l),
        Shown::StrongThenBranching => branching::after_strong(alloc, l),
        Shown::Quotient(relation) => quotients::shown(alloc, l, relation),
        Shown::Reached => reached::shown(alloc, l),
        Shown::System => systems::shown(alloc, l),
    }
}
