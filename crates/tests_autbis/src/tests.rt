//! The tests of this crate, with one file for each subject. The file `running` contains functions that other files call
//! to run their examples.
mod commands;
mod comparisons;
mod faults;
mod programs;
mod reports;
mod running;
mod runs;
