//! JSON texts that may come from a stranger: which of them are read.
#![tactic(auto)]

pub mod nesting;
pub mod reading;
