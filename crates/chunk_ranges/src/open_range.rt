//! The hashes of the chunks of a range that is open at both ends.

ghost use Rattle.std.specs.Prelude.{◌≡◌, ◌<◌, ◌⊎◌, ◌↔◌, false, List, [], length, replicate, IfOk, IfErr, IfSome, IfNone, IsErrOf, IsTrue};
ghost use Rattle.xet_roots.specs.Groups.{Node};
ghost use Rattle.xet_roots.specs.Roots.{salted_root, IsRoot, IsFileHash};

use crate::chunk_range::ChunkRange;
use xet_hash::data_hash::MerkleHash;
use xet_roots::aggregated_hashes::file_hash_of_root;
use xet_roots::error::CoreError;

/// Returns the root and the file hash, without a salt, of the chunks of a range. The range must be open at both ends
/// and have at least one chunk. If there is no range, it returns the hashes of no chunks. Since a range doesn't show
/// whether it has chunks, a range without chunks gets the default hash as its root, and the keyed hash of that root in
/// place of the file hash.
///
/// Fails with [`CoreError::InvalidArguments`] if an end of the range is already marked. Fails with
/// [`CoreError::OutOfMemory`] if an allocation fails.
pub fn hashes_of_open<C: ChunkRange>(
    alloc: &C::Alloc,
    range: Option<&C>,
) -> Result<(MerkleHash, MerkleHash), CoreError>
    ensures none { IfNone range.entry (IfOk result (λ hashes. IsRoot [] hashes.0 × IsFileHash [] (replicate 32 0) hashes.1)) }
    ensures root { IfSome range.entry (λ range. (chunks : List Node) → C.stands range.now chunks →
        IfOk result (λ hashes. IsRoot chunks hashes.0)) }
    ensures file { IfSome range.entry (λ range. (chunks : List Node) → C.stands range.now chunks → 0 < length chunks →
        IfOk result (λ hashes. IsFileHash chunks (replicate 32 0) hashes.1)) }
    ensures salted { IfSome range.entry (λ _. IfOk result (λ hashes. hashes.1 ≡ salted_root (replicate 32 0) hashes.0)) }
    ensures arguments { IsErrOf result CoreError.InvalidArguments
        ↔ ¬ (IfSome range.entry (λ range. (C.start range.now ≡ false) × (C.end range.now ≡ false))) }
    ensures errors { IfErr result (λ e. (e ≡ CoreError.InvalidArguments) ⊎ (e ≡ CoreError.OutOfMemory)) }
{
    if !is_open(range) {
        return Err(CoreError::InvalidArguments);
    }
    let root = root_of_open(alloc, range)?;
    Ok((root, file_hash_of_root(root, range.is_none(), &[0; 32])))
}

// Returns whether neither end of a range is marked. True if there is no range.
fn is_open<C: ChunkRange>(range: Option<&C>) -> bool
    ensures { IsTrue result
        ↔ IfSome range.entry (λ range. (C.start range.now ≡ false) × (C.end range.now ≡ false)) }
{
    match range {
        Some(range) => !range.at_start() && !range.at_end(),
        None => true,
    }
}

// Returns the root of the chunks of a range that is open at both ends, or of no chunks. It fails only for lack of
// memory.
fn root_of_open<C: ChunkRange>(alloc: &C::Alloc, range: Option<&C>) -> Result<MerkleHash, CoreError>
    requires { IfSome range (λ range. (C.start range.now ≡ false) × (C.end range.now ≡ false)) }
    ensures none { IfNone range.entry (IfOk result (IsRoot [])) }
    ensures some { IfSome range.entry (λ range. (chunks : List Node) → C.stands range.now chunks →
        IfOk result (IsRoot chunks)) }
    ensures errors { IfErr result (λ e. e ≡ CoreError.OutOfMemory) }
{
    let mut all = C::from_chunks(alloc.clone()?, true, &[], false)?;
    if let Some(range) = range {
        // The total is at most `u64::MAX`, so the merge can't fail because of sizes.
        let _total = range.total_size();
        all.join(range)?;
    }
    let end = C::from_chunks(alloc.clone()?, false, &[], true)?;
    all.join(&end)?;
    Ok(all.root()?.unwrap())
}
