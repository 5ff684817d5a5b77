//! The program `xetroot`: the root and the file hash of the pairs and chunks in the lines of its standard input.
#![tactic(auto)]

use std::env;
use std::process::ExitCode;
use xet_merkle::merkle_hash_subtree::MerkleHashSubtree;
use xetroot_text::program::program;

fn main(rt: HostRuntime) -> ExitCode {
    let args = env::args(&rt);
    let (r, w, errors) = (&mut rt.stdin(), &mut rt.stdout(), &mut rt.stderr());
    let status = program::<MerkleHashSubtree, _, _, _>(rt.alloc(), args, r, w, errors);
    ExitCode::from(status)
}
