//! The program `worked_examples`: it reads worked examples, makes the call of each line, and prints the lines with what
//! the calls returned. It fails if that isn't what it read.
#![tactic(auto)]

mod cuts;
mod groups;
mod hash_trees;
mod hashes;
mod indexes;
mod lines;
mod maps;
mod merges;
mod messages;
mod openings;
mod programs;
mod range_proofs;
mod ranges;
mod read;
mod roots;
mod sessions;
mod subtrees;
mod told;

use anyhow::{Context, Result};
use std::io;

fn main(rt: HostRuntime) -> Result<()> {
    let text = io::read_to_string(rt.alloc(), rt.stdin())?;
    let answered = lines::answered(rt.alloc(), text.as_str())?;
    let is_right = answered.as_str() == text.as_str();
    rt.print(answered)?;
    is_right
        .then_some(())
        .context("a line says something else than its call returned")
}
