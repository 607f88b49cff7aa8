//! Tests of the public calls of `autbis`: worked examples of runs, comparisons, command lines, messages and exit
//! statuses.
#![tactic(auto)]

#[cfg(test)]
mod tests;
