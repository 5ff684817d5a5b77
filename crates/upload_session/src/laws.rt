//! Laws of the definitions that the contracts of this crate use. Each function does nothing: its contract is the law.

ghost use Rattle.std.specs.Prelude.{◌≡◌, ℕ, ◌+◌, ◌<◌, false, [], List, ◌∷◌, ◌++◌, length};
ghost use Rattle.xet_roots.specs.Groups.{Node};
ghost use Rattle.xet_roots.specs.Roots.{total_size};
ghost use Rattle.upload_session.specs.Hashes.{hashes_of, AreBoth};
ghost use Rattle.upload_session.specs.Session.{Placed, Put, chunks_of, place, place_each, placed_from, overlaps, AreDisjoint, ArePlaced, HaveOneRange, Rises, StandFor};
ghost use Rattle.upload_session.specs.Session.{PlacedRun};

use chunk_ranges::chunk_range::ChunkRange;

/// Two consecutive puts can be swapped: both are accepted in the other order too, and the chunks get the same
/// positions. Any order of some puts is reached by such swaps, so the order of accepted puts doesn't matter.
pub fn puts_may_change_places()
    ensures { (later earlier : List Put) (first second : Put) (placed : List Placed) →
        ArePlaced (later ++ first ∷ second ∷ earlier) placed →
        ArePlaced (later ++ second ∷ first ∷ earlier) placed }
{}

/// Chunks can be put in parts. Putting some, and then the others at the positions after them, gives the same as putting
/// all at once.
pub fn puts_may_come_in_parts()
    ensures { (placed : List Placed) (first : ℕ) (chunks more : List Node) →
        overlaps placed first (length chunks) ≡ false →
        place (place placed first chunks) (first + length chunks) more
        ≡ place placed first (chunks ++ more) }
{}

/// Placing chunks adds their sizes and their hashes to those of the chunks that were placed.
pub fn placed_chunks_add_up()
    ensures sizes { (placed : List Placed) (first : ℕ) (chunks : List Node) →
        total_size (chunks_of (place placed first chunks)) ≡ total_size (chunks_of placed) + total_size chunks }
    ensures hashes { (placed : List Placed) (first : ℕ) (chunks : List Node) →
        AreBoth (hashes_of (chunks_of placed)) (hashes_of chunks) (hashes_of (chunks_of (place placed first chunks))) }
{}

/// Chunks of one list can be placed among those of another, each at its position. If positions rise in each list and
/// none is in both, either list can be first, and of three lists whichever two. Placing the chunks of a put is the put, and
/// placing what puts have placed is the same as those puts.
pub fn lists_may_be_joined_in_any_order()
    ensures commutative { (first second : List Placed) → Rises first → Rises second → AreDisjoint first second →
        place_each first second ≡ place_each second first }
    ensures associative { (first second third : List Placed) → Rises second → Rises third → AreDisjoint third second →
        place_each (place_each first second) third ≡ place_each first (place_each second third) }
    ensures neutral { (placed : List Placed) → Rises placed → place_each [] placed ≡ placed }
    ensures put { (placed others : List Placed) (first : ℕ) (chunks : List Node) → 0 < length chunks →
        overlaps placed first (length chunks) ≡ false →
        place_each placed (placed_from first chunks ++ others) ≡ place_each (place placed first chunks) others }
    ensures puts { (puts more : List Put) (placed others : List Placed) →
        ArePlaced puts placed → ArePlaced more others → AreDisjoint placed others →
        ArePlaced (more ++ puts) (place_each placed others) × Rises placed }
{}

/// The chunks that a session stands for tell its runs, if its ranges are of a kind where chunks have one range. So
/// sessions that stand for the same chunks have the same runs, by whatever calls they came to them.
pub fn chunks_tell_the_runs<C: ChunkRange>()
    ensures { HaveOneRange C.ChunkRange → (runs others : List (PlacedRun C)) (placed : List Placed) →
        StandFor C.ChunkRange runs placed → StandFor C.ChunkRange others placed → runs ≡ others }
{}
