//! Tests of how much calls on ranges and sessions ask of an allocator as these grow, and that they take as much as there is.
#![tactic(auto)]

#[cfg(test)]
mod costs;
#[cfg(test)]
mod largest;
#[cfg(test)]
mod range_proofs;
