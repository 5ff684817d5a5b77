//! Laws of stable points. Each function does nothing: its contract is the law.

ghost use Rattle.std.specs.Prelude.{◌≡◌, ℕ, ◌+◌, ◌↔◌, List, ◌∷◌, ◌++◌, take, drop};
ghost use Rattle.xet_roots.specs.Groups.{Node, Cut};
ghost use Rattle.stable_points.specs.StablePoints.{EndsStable, IsStable, IsTriple, IsGroupBoundary};

/// A place in a list is a stable point if and only if it comes right after the second of three natural cuts with no
/// natural cut between them, each 3 to 7 nodes after the one before it.
pub fn stable_points_are_triples()
    ensures { (nodes : List Node) (place : ℕ) → IsStable (take place nodes) (drop place nodes)
        ↔ ((a b c : ℕ) × IsTriple nodes a b c × (place ≡ b + 1)) }
{}

/// Take two natural cuts with no natural cut between them, the second 3 to 7 nodes after the first. A group ends after
/// the second, whatever nodes come before and after. A group also ends there in a list that begins right after the
/// first.
pub fn stable_boundaries()
    ensures inside { (before left after : List Node) →
        EndsStable left → IsGroupBoundary (before ++ left) after }
    ensures after_cut { (cut : Node) (left after : List Node) →
        Cut cut → EndsStable (cut ∷ left) → IsGroupBoundary left after }
{}
