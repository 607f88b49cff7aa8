//! Labelled transition systems in memory. The crate defines label tables, and systems whose transitions are grouped by
//! source. It also defines the meter, which counts visits (reads of transitions), and the disjoint union of two
//! systems. The place of a transition is its index in the list of all transitions of its system.
//!
//! If a call of this crate returns an error, the error is `Memory`, which means that an allocation failed.
//!
//! Most types implement `Drop` explicitly to make proofs faster: see the row "Drops" of the table in
//! `docs/changing.md`.
#![tactic(auto)]

mod ascending_rows;
mod disjoint;
mod grouping;
mod incoming;
mod labels;
mod lts;
mod meter;
mod row_laws;
mod transitions;
mod visited;

pub use disjoint::{fits_together, union};
pub use incoming::Incoming;
pub use labels::{LONGEST_LABEL, Labels, is_label};
pub use lts::{Lts, in_range, visit_rest};
pub use memory::{MOST_LABELS, MOST_STATES, MOST_TRANSITIONS, Memory};
pub use meter::{Counter, Meter};
pub use row_laws::rows_follow;
pub use transitions::Transitions;
pub use visited::Visited;
