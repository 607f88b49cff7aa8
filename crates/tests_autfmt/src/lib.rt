//! Tests of the public calls of `autfmt`: which inputs are read, which are rejected, and what is written.
#![tactic(auto)]

#[cfg(test)]
mod tests;
