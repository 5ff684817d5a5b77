//! Laws of the definitions that the contracts of this crate use. Each function does nothing: its contract is the law.

ghost use Rattle.std.specs.Prelude.{◌≡◌, ◌↔◌, false, List, [], ◌++◌, IsTrue};
ghost use Rattle.xet_roots.specs.Groups.{Node};
ghost use Rattle.serde_json.specs.Data.{Data};
ghost use Rattle.serde_json.specs.Written.{compact_text, has_float};
ghost use Rattle.subtree_levels.specs.Subtree.{Subtree, IsCanonical, same_subtree};
ghost use Rattle.xet_merkle.specs.SubtreeJson.{subtree_json};
ghost use Rattle.xet_merkle.specs.JsonRules.{Reads};
ghost use Rattle.xet_merkle.specs.Merging.{IsMerged};

pub use stable_points::laws::{stable_boundaries, stable_points_are_triples};
pub use subtree_levels::laws::{
    canonical_subtree_bounds, closed_subtree_has_root, lower_end_below_upper_end,
    one_canonical_subtree, one_split,
};
use xet_hash::laws::hex_text_tells_hashes_apart;
pub use xet_roots::laws::{group_lengths, one_cutting, one_root};

/// Two subtrees compare equal if and only if their marks and their levels are equal.
pub fn equal_subtrees()
    ensures { (a b : Subtree) → IsTrue (same_subtree a b) ↔ (a ≡ b) }
{}

/// Merging is associative. Take adjacent ranges that are the canonical subtrees of lists. Whichever two are merged
/// first, the result is the one canonical subtree of the concatenated list.
pub fn merging_is_associative()
    ensures { (a b c ab bc ab_c a_bc : Subtree) (first second third : List Node) →
        IsCanonical a first → IsCanonical b second → IsCanonical c third →
        IsMerged a b ab → IsMerged ab c ab_c → IsMerged b c bc → IsMerged a bc a_bc →
        (ab_c ≡ a_bc) × IsCanonical ab_c (first ++ (second ++ third)) }
{}

/// All bracketings of one list under the same marks give one subtree and one JSON text. If each range is the canonical
/// subtree of its chunks, `MergeTree::run` and `merge` return a canonical subtree of the concatenated list. Two of
/// those with the same marks are equal.
pub fn all_bracketings_agree()
    ensures subtrees { (a b : Subtree) (nodes : List Node) → a.at_start ≡ b.at_start → a.at_end ≡ b.at_end →
        IsCanonical a nodes → IsCanonical b nodes → a ≡ b }
    ensures texts { (a b : Subtree) (nodes : List Node) → a.at_start ≡ b.at_start → a.at_end ≡ b.at_end →
        IsCanonical a nodes → IsCanonical b nodes → compact_text (subtree_json a) ≡ compact_text (subtree_json b) }
{}

/// An empty range without marks is neutral: merging it with the canonical subtree of a list changes nothing.
pub fn empty_range_is_neutral()
    ensures after { (range empty merged : Subtree) (nodes : List Node) →
        IsCanonical range nodes → IsCanonical empty [] → empty.at_end ≡ false → IsMerged range empty merged → merged ≡ range }
    ensures before { (range empty merged : Subtree) (nodes : List Node) →
        IsCanonical range nodes → IsCanonical empty [] → empty.at_start ≡ false → IsMerged empty range merged → merged ≡ range }
{}

/// The JSON value of a subtree has no floats, so `compact_text` gives its text.
pub fn subtree_json_has_no_float()
    ensures { (subtree : Subtree) → has_float (subtree_json subtree) ≡ false }
{}

/// A JSON value describes at most one subtree. So reading what `to_json` returns gives the same subtree, unless an
/// allocation fails.
pub fn json_says_one_subtree()
    ensures { (json : Data) (a b : Subtree) → Reads json a → Reads json b → a ≡ b }
{
    hex_text_tells_hashes_apart();
}
