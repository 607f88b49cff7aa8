//! This crate parses the command line with the library `clap`. The result is the job that the command line asks for,
//! which is a subcommand with its options. The result is an error if the command line is incorrect, or if the command
//! line asks for help or for the version.
//!
//! The function `command` gives `clap` a description of the command line, and makes a `Job` from the values that `clap`
//! finds for the arguments.
#![tactic(auto)]

mod arguments;

pub use crate::arguments::{Job, VERSION, WordFault, command};
