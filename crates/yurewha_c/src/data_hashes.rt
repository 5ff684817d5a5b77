//! The hashes of many chunks in one call.

ghost use Rattle.std.specs.Prelude.{◌≡◌, ◌≢◌, ◌↔◌, ◌⊎◌, length, IsTrue};
ghost use Rattle.yurewha_c.specs.Pieces.{AreOffsets, Rise, hashes_between, words_of};

use crate::hash::Hash;
use crate::status::{ARGUMENTS, DONE};
use xet_hash::data_hash::compute_data_hash;

// Returns whether no offset is less than the one before it, and none is greater than `end`.
fn rise(offsets: &[usize], end: usize) -> bool
    ensures { IsTrue result ↔ Rise 0 offsets.now end }
{
    let mut from = 0;
    'offsets: for offset in offsets {
        if *offset < from {
            return false;
        }
        from = *offset;
    }
    from <= end
}

// Writes the hash of each piece of some bytes.
fn write_hashes(bytes: &[u8], offsets: &[usize], hashes: &mut [Hash])
    requires { AreOffsets bytes.now offsets.now (length hashes.old) }
    ensures { words_of hashes.new ≡ hashes_between bytes.now offsets.now }
{
    'hashes: for i in 0..hashes.len() {
        let piece = &bytes[offsets[i]..offsets[i + 1]];
        hashes[i] = Hash::of(compute_data_hash(piece));
    }
}

/// Writes the hashes of chunks whose data is in one buffer. The data of chunk i starts at `offsets[i]` and ends before
/// `offsets[i + 1]`, so there is one more offset than there are chunks. It allocates nothing.
///
/// - `DONE`: the hashes are written.
/// - `ARGUMENTS`: if and only if there isn't exactly one more offset than hashes, an offset is less than the one before
///   it, or an offset is greater than the length of the buffer.
///
/// Since 1.1.
#[unsafe(no_mangle)]
pub extern "C" fn yurewha_data_hashes(bytes: &[u8], offsets: &[usize], hashes: &mut [Hash]) -> u32
    ensures done { (result ≡ DONE) ↔ AreOffsets bytes.now offsets.now (length hashes.old) }
    ensures statuses { (result ≡ DONE) ⊎ (result ≡ ARGUMENTS) }
    ensures hashes { result ≡ DONE → words_of hashes.new ≡ hashes_between bytes.now offsets.now }
    ensures unchanged { result ≢ DONE → hashes.new ≡ hashes.old }
{
    if offsets.len() != hashes.len() + 1 || !rise(offsets, bytes.len()) {
        return ARGUMENTS;
    }
    write_hashes(bytes, offsets, hashes);
    DONE
}
