//! Tests of a reader of a file: data that is checked whole, cut off anywhere, and wrong; reads over chunks; and what is kept at a
//! limit.
#![tactic(auto)]

#[cfg(test)]
mod readers;
