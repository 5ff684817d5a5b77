//! Texts of inputs and answers that several tests use, and the rows of tables that are texts.

use std::alloc::{AllocError, Global};

/// The hash of the seed 1, as hex text.
pub const H1: &str = "cfc5d07f6f03c29bbf424132963fe08d19a37d5757aaf520bf08119f05cd56d6";

/// The hash of the seed 2, as hex text.
pub const H2: &str = "c3e67584b5c4fc2a89837ec39e40f2c8a6bb0b2987ac94cd4b31e5fbdd210a72";

/// The hash of the seed 3, as hex text.
pub const H3: &str = "0d2beb91b9196929a5ddec9f6e306924ddf4a24268e3e59fd8464738d525af37";

/// The answer to no pairs.
pub const NO_PAIR: &str = "xorb 0000000000000000000000000000000000000000000000000000000000000000
file 0000000000000000000000000000000000000000000000000000000000000000
";

/// The answer to h1 100, h2 200, h3 300.
pub const THREE_PAIRS: &str = "xorb 71ec1275fca074724e2dd666921b3277c7cee603e4d025bcab2d4050015be2bc
file 54e55dccc6653c612bdb5576c5d3cb34bb31bc4e100248abccf4c908b3ef7715
";

/// The answer to the chunk of the letters abc.
pub const ABC: &str = "xorb a8803506f7aff014f19aa9e9b79dc6455c49672570f96156071329698dd0284e
file 55b9df318a7c45f470d57b04d8ca79a15b0637ffe94b25041a58d00c3528afff
";

/// The open range of no chunks.
pub const NO_CHUNK: &str = r#"{"at_end":false,"at_start":false,"levels":[[0,0]],"nodes":[]}"#;

/// Returns lines with h1, h2 and h3 replaced by the hashes of these names.
pub fn with_hashes(alloc: Global, lines: &str) -> Result<String, AllocError> {
    let first = lines.replace(alloc, "h1", H1)?;
    let second = first.as_str().replace(alloc, "h2", H2)?;
    second.as_str().replace(alloc, "h3", H3)
}

/// Returns the lines of a row. `;` stands for a newline, and h1, h2 and h3 are as in [`with_hashes`].
pub fn lines_of_row(alloc: Global, text: &str) -> Result<String, AllocError> {
    with_hashes(alloc, text.replace(alloc, ";", "\n")?.as_str())
}

/// Returns the first two fields of a row and the rest, unless it has fewer. `mark` separates two fields.
pub fn three_fields(row: &str, mark: char) -> Option<(&str, &str, &str)> {
    let (first, rest) = row.split_once(mark)?;
    let (second, last) = rest.split_once(mark)?;
    Some((first, second, last))
}

/// Returns the first three fields of a row and the rest, unless it has fewer.
pub fn four_fields(row: &str, mark: char) -> Option<(&str, &str, &str, &str)> {
    let (first, second, rest) = three_fields(row, mark)?;
    let (third, last) = rest.split_once(mark)?;
    Some((first, second, third, last))
}
