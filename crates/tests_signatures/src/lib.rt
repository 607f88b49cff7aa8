//! Tests of the public calls of the crate `signatures`. A signature is stored as a list of pairs in ascending order.
//! The tests check which lists get the same ID, and which pairs the union of two lists contains.
#![tactic(auto)]

#[cfg(test)]
mod spread;
#[cfg(test)]
mod tests;
