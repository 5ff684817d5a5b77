//! Tests of `xetroot_text` and `xetrange_text`: what `xetroot` and `xetrange` write, devices that fail, and how many
//! allocations lists need.
#![tactic(auto)]

#[cfg(test)]
mod devices;
#[cfg(test)]
mod lines;
#[cfg(test)]
mod memory;
#[cfg(test)]
mod parts;
#[cfg(test)]
mod programs;
#[cfg(test)]
mod ranges;
#[cfg(test)]
mod session_names;
