//! The tests of this crate, with one file for each subject. The file `reading` contains functions that other files call
//! to run their examples. The file `long` contains functions that make long inputs.
mod headers;
mod hiding;
mod long;
mod messages;
mod pieces;
mod reading;
mod streams;
mod transitions;
mod writing;
