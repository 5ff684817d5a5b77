//! The chunker, in the caller's own memory. A copy of its bytes is a copy of the chunker.

ghost use Rattle.std.specs.Prelude.{◌≡◌, ℕ, ◌+◌, ◌<◌, ◌≤◌, ◌∷◌, List, [], ◌++◌, length, take, if◌then◌else◌, ◌==◌};
ghost use Rattle.xet_chunker.specs.Cuts.{cuts_at, least};
ghost use Rattle.xet_chunker.specs.Chunker.{Holds};

use xet_chunker::Chunker;

/// Begins a chunker at the beginning of a file, or of any chunk.
///
/// Since 1.1.
#[unsafe(no_mangle)]
pub extern "C" fn yurewha_chunker_begin(chunker: &mut Chunker)
    ensures { Holds chunker.new [] }
{
    *chunker = Chunker::new();
}

/// Takes more of the file. If the chunk ends in the piece, returns after how many bytes of it, and takes no more than these: the next
/// call begins with what follows. Otherwise takes the whole piece, and returns 0. A chunk may end with the piece.
///
/// A chunk has 8192 to 131072 bytes, but the last of a file may have fewer. The chunks are the same in whatever pieces the file comes.
///
/// Since 1.1.
#[unsafe(no_mangle)]
pub extern "C" fn yurewha_chunker_next_boundary(chunker: &mut Chunker, piece: &[u8]) -> u64
    ensures fits { result ≤ length piece.now }
    ensures next { 0 < result → Holds chunker.new [] }
    ensures least { 0 < result → (chunk : List ℕ) → Holds chunker.old chunk → least ≤ length chunk + result }
    ensures end { 0 < result → (at : ℕ) (chunk rest : List ℕ) → Holds chunker.old chunk →
        cuts_at at (chunk ++ (take result piece.now ++ rest))
        ≡ (at + (length chunk + result)) ∷ cuts_at (at + (length chunk + result)) rest }
    ensures goes_on { result ≡ 0 → (chunk : List ℕ) → Holds chunker.old chunk → Holds chunker.new (chunk ++ piece.now) }
{
    match chunker.next_boundary(piece) {
        Some(end) => end as u64,
        None => 0,
    }
}

/// Returns how many bytes of the chunk were taken so far. If the file ends here, and there are any, they are its last chunk.
///
/// Since 1.1.
#[unsafe(no_mangle)]
pub extern "C" fn yurewha_chunker_taken(chunker: &Chunker) -> u64
    ensures count { (chunk : List ℕ) → Holds chunker.now chunk → result ≡ length chunk }
    ensures last { (at : ℕ) (chunk : List ℕ) → Holds chunker.now chunk →
        cuts_at at chunk ≡ if result == 0 then [] else (at + result) ∷ [] }
{
    chunker.taken() as u64
}
