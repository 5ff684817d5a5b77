//! Reads an input, cuts it into numbered lines, and writes the bytes of an answer. Whatever takes the lines decides
//! what they mean.
#![tactic(auto)]

pub mod answer_lines;
pub mod devices;
pub mod fault;
pub mod line_and_data;
mod reading;
pub mod request;
pub mod take_lines;
