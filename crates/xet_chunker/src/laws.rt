//! Laws of cuts. Each function does nothing: its contract is the law.

ghost use Rattle.std.specs.Prelude.{◌≡◌, ℕ, ◌+◌, ◌<◌, ◌≤◌, List, [], ◌∷◌, ◌++◌, length};
ghost use Rattle.xet_chunker.specs.Gear.{gear_of};
ghost use Rattle.xet_chunker.specs.Cuts.{cuts};
ghost use Rattle.xet_chunker.specs.Candidates.{candidates, is_candidate};
ghost use Rattle.xet_chunker.specs.Pieces.{found_in, joined};
ghost use Rattle.xet_chunker.specs.CutChoice.{IsNext, NoneBetween};
ghost use Rattle.xet_chunker.specs.Chosen.{AreChosen, AreSized};

/// Only the last 64 bytes decide a gear.
pub fn gears_forget()
    ensures { (before last : List ℕ) → 64 ≤ length last → gear_of (before ++ last) ≡ gear_of last }
{}

/// Whether a place is a candidate, the 64 bytes before it decide: it is the same in a part of the message.
pub fn candidates_are_local()
    ensures { (before part after : List ℕ) (place : ℕ) → 64 ≤ place → place ≤ length part →
        is_candidate (before ++ (part ++ after)) (length before + place) ≡ is_candidate part place }
{}

/// The candidates of a message are those of its parts, one part after another.
pub fn candidates_of_parts()
    ensures { (message : List ℕ) (from first second : ℕ) →
        candidates message from (first + second) ≡ candidates message from first ++ candidates message (from + first) second }
{}

/// The cuts of a message follow from its candidates and its length alone.
pub fn cuts_are_chosen()
    ensures { (message : List ℕ) → AreChosen (candidates message 0 (length message)) (length message) 0 (cuts message) }
{}

/// A chunk has 8 KiB to 128 KiB, but the last may have fewer; and the chunks are the whole message.
pub fn chunks_are_sized()
    ensures { (message : List ℕ) → AreSized (length message) 0 (cuts message) }
{}

/// Many machines find the cuts: for any cutting of a message in pieces, the cuts follow from the candidates that are found in each piece
/// with the last 63 bytes before it.
pub fn pieces_give_the_cuts()
    ensures { (pieces : List (List ℕ)) →
        AreChosen (found_in [] pieces) (length (joined pieces)) 0 (cuts (joined pieces)) }
{}

/// What a finder answers is what a choice is given: the next candidate, or that there is none.
pub fn found_is_next()
    ensures first { (message : List ℕ) (from n : ℕ) →
        candidates message from n ≡ (from + n) ∷ [] → IsNext message from (from + n) }
    ensures none { (message : List ℕ) (from n : ℕ) →
        candidates message from n ≡ [] → NoneBetween message from (from + n + 1) }
{}
