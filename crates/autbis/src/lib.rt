//! The program `autbis` without its function `main`: everything from the command-line arguments to the exit status.
//!
//! The module `job` does the task that the command line asks for. The module `job` uses the modules `opener` and
//! `opening` to open files. The module `run` minimises one input, and `compare` compares two inputs. The module
//! `program` calls these two modules. The module `program` also writes error messages with the module `reports`, and
//! the line that `--stats` asks for with the module `stats`.
#![tactic(auto)]

mod compare;
mod job;
mod opener;
mod opening;
mod program;
mod reports;
mod run;
mod stats;

pub use crate::compare::{CmpFault, Side, run_cmp};
pub use crate::job::main_program;
pub use crate::opener::{Disk, Opener};
pub use crate::program::{cmp_program, min_program};
pub use crate::reports::{answer_words, cannot_open, report, report_words};
pub use crate::run::{Counts, run_min};
pub use arguments::{Job, VERSION, WordFault, command};
pub use autfmt::{Fault, Hidden, Limits};
pub use quotient::Relation;
