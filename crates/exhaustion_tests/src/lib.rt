//! What calls answer that take memory from the global allocator, when all of it is used up, and when ever more is left.
//! JSON values and the lists of `MergeTree::run` know no other allocator, so no test can refuse their requests.
#![tactic(auto)]

#[cfg(test)]
mod memory;
#[cfg(test)]
mod tests;
