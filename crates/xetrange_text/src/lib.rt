//! The library of the program `xetrange`: ranges of a file are made separately and merged without their chunks, each as
//! a line of JSON.
#![tactic(auto)]

mod chunks;
pub mod command;
pub mod fault;
pub mod join;
pub mod laws;
pub mod make;
mod merged_lines;
pub mod program;
mod proof_line;
pub mod prove;
mod range_line;
pub mod verify;
