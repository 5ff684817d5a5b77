//! What two lists of chunks have in common at the front and at the end.

ghost use Rattle.std.specs.Prelude.{◌≡◌, ◌↔◌, IsTrue};
ghost use Rattle.range_proof.specs.Differing.{IsCommonPrefix, IsCommonSuffix};

use xet_roots::aggregated_hashes::Node;

// Returns how many nodes two lists have in common at the front.
pub(crate) fn common_prefix(first: &[Node], second: &[Node]) -> usize
    ensures { IsCommonPrefix first.now second.now result }
{
    let most = first.len().min(second.len());
    'nodes: for k in 0..most {
        if !are_same(&first[k], &second[k]) {
            return k;
        }
    }
    most
}

// Returns how many nodes two lists have in common at the end, but at most `most`.
pub(crate) fn common_suffix(first: &[Node], second: &[Node], most: usize) -> usize
    ensures { IsCommonSuffix first.now second.now most result }
{
    let most = most.min(first.len()).min(second.len());
    'nodes: for k in 0..most {
        if !are_same(&first[first.len() - 1 - k], &second[second.len() - 1 - k]) {
            return k;
        }
    }
    most
}

// Returns whether two nodes have the same hash and the same size.
fn are_same(first: &Node, second: &Node) -> bool
    ensures { IsTrue result ↔ (first.now ≡ second.now) }
{
    first.0 == second.0 && first.1 == second.1
}
