//! Lines of pairs: what a line says, the pairs of a text, and the two output lines with their root and file hash.
#![tactic(auto)]

pub mod line;
mod open_line;
pub mod output;
pub mod pair_fault;
pub mod said_lines;
