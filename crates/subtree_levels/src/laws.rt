//! Laws of canonical subtrees. Each function does nothing: its contract is the law.

ghost use Rattle.std.specs.Prelude.{◌≡◌, ℕ, ◌+◌, ◌^◌, ◌<◌, ◌≤◌, Bool, true, List, length};
ghost use Rattle.xet_roots.specs.Groups.{Node};
ghost use Rattle.xet_roots.specs.Roots.{IsRoot, parent};
ghost use Rattle.subtree_levels.specs.Levels.{Level, top_nodes, top_hash, node_count};
ghost use Rattle.subtree_levels.specs.Canonical.{IsSplit, IsCanonicalBy};

/// A list has at most one split under given marks.
pub fn one_split()
    ensures { (at_start at_end : Bool) (nodes left middle right left2 middle2 right2 : List Node) →
        IsSplit at_start at_end nodes left middle right → IsSplit at_start at_end nodes left2 middle2 right2 →
        (left ≡ left2) × (middle ≡ middle2) × (right ≡ right2) }
{}

/// The lower end of a split comes before its upper end.
pub fn lower_end_below_upper_end()
    ensures { (at_start at_end : Bool) (nodes left middle right : List Node) →
        IsSplit at_start at_end nodes left middle right → 0 < length middle }
{}

/// Each list has exactly one canonical subtree under given marks. Making it takes a fixed number of parents, its work.
pub fn one_canonical_subtree()
    ensures exists { (make : List Node → Node) (at_start at_end : Bool) (nodes : List Node) →
        (levels : List Level) × (work : ℕ) × IsCanonicalBy make at_start at_end nodes levels work }
    ensures unique { (make : List Node → Node) (at_start at_end : Bool) (nodes : List Node) →
        (levels others : List Level) (work others_work : ℕ) →
        IsCanonicalBy make at_start at_end nodes levels work → IsCanonicalBy make at_start at_end nodes others others_work →
        (levels ≡ others) × (work ≡ others_work) }
{}

/// The canonical subtree of a list with both ends marked has at most one node at the top. The hash of this node is the
/// root of the list.
pub fn closed_subtree_has_root()
    ensures { (nodes : List Node) (levels : List Level) (work : ℕ) →
        IsCanonicalBy parent true true nodes levels work →
        (length (top_nodes levels) ≤ 1) × IsRoot nodes (top_hash levels) }
{}

/// A canonical subtree keeps at most as many nodes as its list has. If it has two levels and `below` more, its list has
/// more nodes than 3 to the power of `below`.
pub fn canonical_subtree_bounds()
    ensures nodes { (make : List Node → Node) (at_start at_end : Bool) (nodes : List Node) (levels : List Level) (work : ℕ) →
        IsCanonicalBy make at_start at_end nodes levels work → node_count levels ≤ length nodes }
    ensures levels { (make : List Node → Node) (at_start at_end : Bool) (nodes : List Node) (levels : List Level) (work below : ℕ) →
        IsCanonicalBy make at_start at_end nodes levels work → length levels ≡ below + 2 → 3 ^ below < length nodes }
{}
