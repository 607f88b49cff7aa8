//! Code that the tests of several crates share. It consists of worked examples with names, of a sink (the object to
//! which the output is written) that counts the calls of its method `finish`, and of a check that reports the name of a
//! failing example.
#![tactic(auto)]

mod counted;
mod examples;

pub use counted::Counted;
pub use examples::{
    CHAIN_OF_THREE, EXAMPLES, Example, HIDDEN_QUOTED, LONE_STATE, LONE_STATE_TEXT,
    MOMENT_OF_CHOICE, Pair, SILENT_BESIDE_VISIBLE, SILENT_CHAIN, SILENT_CHOICE, SILENT_DETOUR,
    SILENT_MIDDLE, STEP, TWO_EQUAL_TARGETS, TWO_EQUAL_TARGETS_TEXT,
};
use std::test::Fail;

/// Fails with the name `name` of the example if `is_as_wanted` is false.
pub fn check(name: &str, is_as_wanted: bool) -> Result<(), Fail> {
    if is_as_wanted {
        Ok(())
    } else {
        Err(Fail::new(name))
    }
}
