//! Roots, file hashes and stable points of lists of chunks.

ghost use Rattle.std.specs.Prelude.{◌≡◌, ◌≢◌, replicate};
ghost use Rattle.xet_merkle.specs.Roots.{IsRoot};
ghost use Rattle.xet_merkle.specs.StablePoints.{IsFirstStable, IsLastStable};
ghost use Rattle.yurewha_c.specs.Chunks.{nodes_of};
ghost use Rattle.yurewha_c.specs.Roots.{IsBoundaryAnywhere, IsRootStatus, WritesFileHash, WritesPoint};

use crate::chunks::Chunk;
use crate::hash::{Bytes, Hash};
use crate::status::{ARGUMENTS, DONE, status_of};
use std::alloc::Global;
use xet_merkle::aggregated_hashes::file_hash_of_root;
use xet_merkle::as_node::xorb_hash_of;
use xet_merkle::merkle_hash_subtree::{find_stable_end_of, find_stable_start_of};

/// Writes the root of a list of chunks. The root of no chunks is the default hash. The root of one chunk is its own
/// hash. The root of more chunks is the hash at the top of their tree.
///
/// - `DONE`: the root is written.
/// - `SIZES`: if and only if the sizes add up to more than 2^64 - 1.
/// - `MEMORY`: an allocation failed; never with one chunk or none.
///
/// Since 1.1.
#[unsafe(no_mangle)]
pub extern "C" fn yurewha_xorb_hash(alloc: Global, chunks: &[Chunk], root: &mut Hash) -> u32
    ensures root { result ≡ DONE → IsRoot (nodes_of chunks.now) root.new.words }
    ensures status { IsRootStatus chunks.now result }
    ensures unchanged { result ≢ DONE → root.new ≡ root.old }
{
    match xorb_hash_of(alloc, chunks) {
        Ok(value) => {
            *root = Hash::of(value);
            DONE
        }
        Err(error) => status_of(error),
    }
}

// Writes the file hash of some chunks. Returns its status.
fn write_file_hash(alloc: Global, chunks: &[Chunk], salt: &[u8; 32], hash: &mut Hash) -> u32
    ensures { WritesFileHash chunks.now salt.now result hash.old hash.new }
{
    match xorb_hash_of(alloc, chunks) {
        Ok(root) => {
            *hash = Hash::of(file_hash_of_root(root, chunks.is_empty(), salt));
            DONE
        }
        Err(error) => status_of(error),
    }
}

/// Writes the file hash of a list of chunks without a salt. With no chunks it is the default hash. Otherwise it is the
/// hmac of their root under 32 zero bytes. The statuses are those of `yurewha_xorb_hash`.
///
/// Since 1.1.
#[unsafe(no_mangle)]
pub extern "C" fn yurewha_file_hash(alloc: Global, chunks: &[Chunk], hash: &mut Hash) -> u32
    ensures { WritesFileHash chunks.now (replicate 32 0) result hash.old hash.new }
{
    write_file_hash(alloc, chunks, &[0; 32], hash)
}

/// Writes the file hash of a list of chunks under a salt. With no chunks it is the default hash, whatever the salt.
/// Otherwise it is the hmac of their root under the bytes of the salt. The statuses are those of `yurewha_xorb_hash`.
///
/// Since 1.1.
#[unsafe(no_mangle)]
pub extern "C" fn yurewha_file_hash_with_salt(
    alloc: Global,
    chunks: &[Chunk],
    salt: &Bytes,
    hash: &mut Hash,
) -> u32
    ensures { WritesFileHash chunks.now salt.now.bytes result hash.old hash.new }
{
    write_file_hash(alloc, chunks, &salt.bytes, hash)
}

/// Writes the first stable point of some nodes, as the number of nodes before it. At a stable point a group ends, no
/// matter which nodes come before and after the given ones. It allocates nothing.
///
/// - `DONE`: the point is written.
/// - `ARGUMENTS`: there is none.
///
/// Since 1.1.
#[unsafe(no_mangle)]
pub extern "C" fn yurewha_find_stable_start(nodes: &[Chunk], point: &mut usize) -> u32
    ensures point { WritesPoint IsFirstStable nodes.now result point.old point.new }
    ensures boundary { result ≡ DONE → IsBoundaryAnywhere point.new (nodes_of nodes.now) }
{
    match find_stable_start_of(nodes) {
        Some(found) => {
            *point = found;
            DONE
        }
        None => ARGUMENTS,
    }
}

/// Writes the last stable point of some nodes, as the number of nodes before it. It allocates nothing. The statuses are
/// those of `yurewha_find_stable_start`.
///
/// Since 1.1.
#[unsafe(no_mangle)]
pub extern "C" fn yurewha_find_stable_end(nodes: &[Chunk], point: &mut usize) -> u32
    ensures point { WritesPoint IsLastStable nodes.now result point.old point.new }
    ensures boundary { result ≡ DONE → IsBoundaryAnywhere point.new (nodes_of nodes.now) }
{
    match find_stable_end_of(nodes) {
        Some(found) => {
            *point = found;
            DONE
        }
        None => ARGUMENTS,
    }
}
