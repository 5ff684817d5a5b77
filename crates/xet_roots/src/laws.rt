//! Laws of groups and roots. Each function does nothing: its contract is the law.

ghost use Rattle.std.specs.Prelude.{◌≡◌, ℕ, ◌<◌, ◌≤◌, List, ◌∷◌, ◌++◌, length};
ghost use Rattle.xet_roots.specs.Groups.{Node, Groups};
ghost use Rattle.xet_roots.specs.Roots.{IsRoot};

/// Each list of nodes has exactly one division into groups.
pub fn one_cutting()
    ensures exists { (nodes : List Node) → (groups : List (List Node)) × Groups nodes groups }
    ensures unique { (nodes : List Node) (groups others : List (List Node)) →
        Groups nodes groups → Groups nodes others → groups ≡ others }
{}

/// A group has 1 to 9 nodes. If another group follows, it has at least 3.
pub fn group_lengths()
    ensures { (nodes : List Node) (before : List (List Node)) (group : List Node) (after : List (List Node)) →
        Groups nodes (before ++ group ∷ after) →
        (1 ≤ length group) × (length group ≤ 9) × (0 < length after → 3 ≤ length group) }
{}

/// Each list of nodes has exactly one root.
pub fn one_root()
    ensures exists { (nodes : List Node) → (hash : List ℕ) × IsRoot nodes hash }
    ensures unique { (nodes : List Node) (hash other : List ℕ) →
        IsRoot nodes hash → IsRoot nodes other → hash ≡ other }
{}
