//! Worked examples: small systems with names, and the results that the calls of `lts`, `refine` and `quotient` must
//! have for these systems. This crate consists of tests only.
#![tactic(auto)]

#[cfg(test)]
mod branching;
#[cfg(test)]
mod checks;
#[cfg(test)]
mod comparisons;
#[cfg(test)]
mod families;
#[cfg(test)]
mod named;
#[cfg(test)]
mod pairing;
#[cfg(test)]
mod quotients;
#[cfg(test)]
mod reached;
#[cfg(test)]
mod refining;
#[cfg(test)]
mod showing;
#[cfg(test)]
mod splits;
#[cfg(test)]
mod strong;
#[cfg(test)]
mod systems;
#[cfg(test)]
mod texts;
