//! What may stay on either side of a level below the top.

ghost use Rattle.std.specs.Prelude.{◌↔◌, false, IsTrue};
ghost use Rattle.stable_points.specs.StablePoints.{BeginsStable};
ghost use Rattle.subtree_levels.specs.WellFormed.{IsLeftSide, IsRightSide};

use stable_points::search::{ends_stable, find_stable_start, is_stable_gap, last_stable};
use xet_roots::aggregated_hashes::Node;
use xet_roots::groups::is_natural_cut;

// Returns whether nodes may stay on the left if the start isn't marked.
pub(crate) fn is_left_side(nodes: &[Node]) -> bool
    ensures { IsTrue result ↔ IsLeftSide nodes.now }
{
    ends_stable(nodes) && find_stable_start(nodes).is_none()
}

// Returns whether nodes may stay on the right if the end isn't marked.
pub(crate) fn is_right_side(nodes: &[Node]) -> bool
    ensures { IsTrue result ↔ IsRightSide nodes.now }
{
    begins_stable(nodes) && last_stable(nodes, true).is_none()
}

// Returns whether the first natural cut has index 2 to 6.
fn begins_stable(nodes: &[Node]) -> bool
    ensures { IsTrue result ↔ BeginsStable nodes.now }
{
    'nodes: for i in 0..nodes.len() {
        if is_natural_cut(&nodes[i]) {
            return is_stable_gap(i);
        }
    }
    false
}
