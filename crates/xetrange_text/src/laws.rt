//! Laws of the definitions that the contracts of this crate use. Each function does nothing: its contract is the law.

ghost use Rattle.std.specs.Prelude.{◌≡◌, ◌≤◌, ℕ, List, flat_map, length, replicate};
ghost use Rattle.line_io.specs.Lines.{byte_limit, lines_of};
ghost use Rattle.pair_text.specs.PairText.{IsAnswer, NoPositions};
ghost use Rattle.xetrange_text.specs.Answers.{IsRootOf};
ghost use Rattle.xetrange_text.specs.Cutting.{InputOf};
ghost use Rattle.xetrange_text.specs.Verifying.{IsPartUnlessCollision, IsVerifiedOf};
ghost use Rattle.commitment.specs.Commitment.{chunk_nodes};
ghost use Rattle.xet_merkle.specs.Roots.{IsFileHash};

use range_proof::laws::{
    bytes_that_are_read_are_those_of_the_file, json_says_well_formed_range_proofs,
};
use xet_merkle::laws::{canonical_subtree_bounds, json_says_one_subtree};

/// Cut the lines of a text into pieces in any way, let `make` write the range of each piece, and merge none or some of
/// the adjacent ranges. Then `root` writes the answer to the text, and no line of the text names a position. So it
/// writes what `xetroot` writes.
pub fn however_it_was_cut()
    ensures answer { (text output input : List ℕ) (pieces : List (List ℕ)) → lines_of text ≡ flat_map lines_of pieces →
        length text ≤ byte_limit → InputOf pieces input → IsRootOf input output → IsAnswer text output }
    ensures no_positions { (text output input : List ℕ) (pieces : List (List ℕ)) → lines_of text ≡ flat_map lines_of pieces →
        length text ≤ byte_limit → InputOf pieces input → IsRootOf input output → NoPositions (lines_of text) }
{
    canonical_subtree_bounds();
    json_says_one_subtree();
}

/// What `verify` writes is a part of the file. Take any input, and what `verify` writes for it. Then each file with the file
/// hash has these bytes between the two places, and is as long as the proof of the input says. Otherwise there is a
/// collision: a message that was hashed to verify the input, and a different one that is hashed for the file, have the same
/// BLAKE3 hash.
pub fn verified_bytes_are_those_of_the_file()
    ensures { (file_hash text output : List ℕ) (from to : ℕ) (file : List (List ℕ)) →
        IsVerifiedOf file_hash from to text output → IsFileHash (chunk_nodes file) (replicate 32 0) file_hash →
        IsPartUnlessCollision file from to text output }
{
    json_says_well_formed_range_proofs();
    bytes_that_are_read_are_those_of_the_file();
}
