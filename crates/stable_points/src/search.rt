//! The stable points of a list of nodes. Groups end there, whatever nodes come before and after the list.

ghost use Rattle.std.specs.Prelude.{◌≡◌, ◌+◌, ◌<◌, ◌≤◌, ◌↔◌, List, ◌++◌, true, false, length, map, take, drop, IfSome, IfNone, IsTrue};
ghost use Rattle.xet_roots.specs.Groups.{Node, EndsWithCut};
ghost use Rattle.stable_points.specs.StablePoints.{NoCut, EndsStable, NoStable, IsFirstStable, IsLastStable, IsGroupBoundary};
ghost use Rattle.stable_points.specs.Steps.StableScan.{is_stable_gap};
ghost use Rattle.stable_points.specs.Steps.StableScan.{after_cut, completes, next_scan, IsFront, scan_after, completes_none, AddsNoStable, AddsNoStableBefore};

use xet_roots::aggregated_hashes::Node;
use xet_roots::as_node::AsNode;
use xet_roots::groups::{MAX_GROUP_LEN, MIN_GROUP_LEN, is_natural_cut};

// The fewest and the most nodes between two natural cuts for which a group ends at the second, whatever nodes come
// before. If there are at least two, the second also ends a group that begins right after the first. If there are at
// most six, it is in reach of a group in which the first has index 0 or 1, too early to end it.
const MIN_GAP: usize = MIN_GROUP_LEN - 1;

const MAX_GAP: usize = MAX_GROUP_LEN - MIN_GROUP_LEN;

// What a scan remembers of the nodes that it has passed.
#[derive(Clone, Copy)]
struct CutScan {
    // Whether a natural cut was among them, or was in front of them.
    has_cut: bool,
    // Whether the last natural cut is 3 to 7 nodes after the natural cut before it.
    ends_stable: bool,
    // How many nodes come after the last natural cut.
    since_cut: usize,
}

/// Returns whether two natural cuts with this many nodes between them are 3 to 7 nodes apart.
pub fn is_stable_gap(between: usize) -> bool
    ensures { result ≡ is_stable_gap between }
{
    (MIN_GAP..=MAX_GAP).contains(&between)
}

impl CutScan {
    // Starts a scan, after a natural cut or after nothing.
    fn new(after_cut: bool) -> Self
        ensures { result ≡ record { has_cut = after_cut; ends_stable = false; since_cut = 0 } }
    {
        CutScan {
            has_cut: after_cut,
            ends_stable: false,
            since_cut: 0,
        }
    }

    // Returns whether the next node is the third natural cut of a stable point.
    fn completes(&self, is_cut: bool) -> bool
        ensures { result ≡ completes self.now is_cut }
    {
        is_cut && self.ends_stable && is_stable_gap(self.since_cut)
    }

    // Returns whether the passed nodes end stable.
    fn is_end(&self) -> bool
        ensures { IsTrue result ↔ ((self.now.ends_stable ≡ true) × (self.now.since_cut ≡ 0)) }
    {
        self.ends_stable && self.since_cut == 0
    }

    // Passes the next node.
    fn pass(&mut self, is_cut: bool)
        requires { self.old.since_cut < usize.MAX }
        ensures { self.new ≡ next_scan self.old is_cut }
    {
        if is_cut {
            self.ends_stable = self.has_cut && is_stable_gap(self.since_cut);
            self.has_cut = true;
            self.since_cut = 0;
        } else {
            self.since_cut += 1;
        }
    }

    // Passes some nodes. Returns whether none of them is the third natural cut of a stable point.
    fn pass_all(&mut self, nodes: &[Node]) -> bool
        requires { self.old.since_cut + length nodes.now < usize.MAX }
        ensures scan { self.new ≡ scan_after self.old nodes.now }
        ensures none { result ≡ completes_none self.old nodes.now }
    {
        let mut none = true;
        'nodes: for i in 0..nodes.len() {
            let is_cut = is_natural_cut(&nodes[i]);
            none = none && !self.completes(is_cut);
            self.pass(is_cut);
        }
        none
    }
}

// Returns whether none of some nodes is a natural cut.
fn has_no_cut(nodes: &[Node]) -> bool
    ensures { IsTrue result → NoCut nodes.now }
{
    'nodes: for i in 0..nodes.len() {
        if is_natural_cut(&nodes[i]) {
            return false;
        }
    }
    true
}

// The third natural cut of a stable point is at most this many nodes after its first one.
const LOOK_BACK: usize = 2 * (MAX_GAP + 1);

// Returns how many of the nodes after a natural cut a scan can skip: those up to the last natural cut but one.
fn late_start(nodes: &[Node]) -> usize
    ensures bound { result ≤ length nodes.now }
    ensures scan { scan_after after_cut (drop result nodes.now) ≡ scan_after after_cut nodes.now }
{
    let mut has_cut = false;
    let mut rest = nodes;
    'nodes: while let [before @ .., node] = rest {
        if is_natural_cut(node) {
            if has_cut {
                return rest.len();
            }
            has_cut = true;
        }
        rest = before;
    }
    0
}

/// Returns whether no stable point is added if two lists of nodes are appended to others. It looks at only the last few
/// of the others, and at none of them if no natural cut is appended.
pub fn adds_no_stable(nodes: &[Node], first: &[Node], second: &[Node]) -> bool
    ensures { IsTrue result → AddsNoStable nodes.now (first.now ++ second.now) }
{
    if has_no_cut(first) && has_no_cut(second) {
        return true;
    }
    let (_, near) = nodes.split_at(nodes.len().saturating_sub(LOOK_BACK));
    let (_, late) = near.split_at(late_start(near));
    let mut scan = CutScan::new(true);
    let _ = scan.pass_all(late);
    scan.pass_all(first) && scan.pass_all(second)
}

/// Returns whether no stable point is added if two lists of nodes are put before others. It looks at only the first few
/// of the others.
pub fn adds_no_stable_before(first: &[Node], second: &[Node], nodes: &[Node]) -> bool
    ensures { IsTrue result → AddsNoStableBefore (first.now ++ second.now) nodes.now }
{
    if first.is_empty() && second.is_empty() {
        return true;
    }
    let (near, _) = nodes.split_at(nodes.len().min(LOOK_BACK));
    let mut scan = CutScan::new(false);
    scan.pass_all(first) && (scan.pass_all(second) && scan.pass_all(near))
}

/// Returns whether nodes end with a natural cut that is 3 to 7 nodes after the natural cut before it.
pub fn ends_stable(nodes: &[Node]) -> bool
    ensures { IsTrue result ↔ EndsStable nodes.now }
{
    let mut scan = CutScan::new(false);
    'scan: for i in 0..nodes.len() {
        scan.pass(is_natural_cut(&nodes[i]));
    }
    scan.is_end()
}

/// Returns the first stable point of some nodes, as the number of nodes before it, or `None` if there is none. A group
/// ends there, whatever nodes come before and after the given ones.
pub fn find_stable_start(nodes: &[Node]) -> Option<usize>
    ensures bound { IfSome result (λ p. p ≤ length nodes.now) }
    ensures first { IfSome result (λ p. IsFirstStable (take p nodes.now) (drop p nodes.now)) }
    ensures boundary { IfSome result (λ p. (before after : List Node) →
        IsGroupBoundary (before ++ take p nodes.now) (drop p nodes.now ++ after)) }
    ensures none { IfNone result (NoStable nodes.now) }
{
    find_stable_start_of(nodes)
}

/// Does the same as [`find_stable_start`] for nodes in a form of the caller's own.
pub fn find_stable_start_of<T: AsNode>(nodes: &[T]) -> Option<usize>
    ensures bound { IfSome result (λ p. p ≤ length nodes.now) }
    ensures first { IfSome result (λ p. IsFirstStable (take p (map T.node_of nodes.now)) (drop p (map T.node_of nodes.now))) }
    ensures boundary { IfSome result (λ p. (before after : List Node) →
        IsGroupBoundary (before ++ take p (map T.node_of nodes.now)) (drop p (map T.node_of nodes.now) ++ after)) }
    ensures none { IfNone result (NoStable (map T.node_of nodes.now)) }
{
    let mut scan = CutScan::new(false);
    'scan: for i in 0..nodes.len() {
        let is_cut = is_natural_cut(&nodes[i].node());
        if scan.completes(is_cut) {
            return Some(i - scan.since_cut);
        }
        scan.pass(is_cut);
    }
    None
}

/// Returns the last stable point of some nodes that come after a natural cut, or after nothing.
pub fn last_stable(nodes: &[Node], after_cut: bool) -> Option<usize>
    ensures bound { IfSome result (λ p. p ≤ length nodes.now) }
    ensures last { IfSome result (λ p. (front : List Node) → IsFront after_cut front →
        IsLastStable (front ++ take p nodes.now) (drop p nodes.now)) }
    ensures none { IfNone result ((front : List Node) → IsFront after_cut front → NoStable (front ++ nodes.now)) }
{
    last_stable_of(nodes, after_cut)
}

// Does the same for nodes in a form of the caller's own.
fn last_stable_of<T: AsNode>(nodes: &[T], after_cut: bool) -> Option<usize>
    ensures bound { IfSome result (λ p. p ≤ length nodes.now) }
    ensures last { IfSome result (λ p. (front : List Node) → IsFront after_cut front →
        IsLastStable (front ++ take p (map T.node_of nodes.now)) (drop p (map T.node_of nodes.now))) }
    ensures none { IfNone result ((front : List Node) → IsFront after_cut front → NoStable (front ++ map T.node_of nodes.now)) }
{
    let mut scan = CutScan::new(after_cut);
    let mut found = None;
    'scan: for i in 0..nodes.len() {
        let is_cut = is_natural_cut(&nodes[i].node());
        if scan.completes(is_cut) {
            found = Some(i - scan.since_cut);
        }
        scan.pass(is_cut);
    }
    found
}

/// Returns the last stable point of some nodes, as the number of nodes before it, or `None` if there is none. A group
/// ends there, whatever nodes come before and after the given ones.
pub fn find_stable_end(nodes: &[Node]) -> Option<usize>
    ensures bound { IfSome result (λ p. p ≤ length nodes.now) }
    ensures last { IfSome result (λ p. IsLastStable (take p nodes.now) (drop p nodes.now)) }
    ensures boundary { IfSome result (λ p. (before after : List Node) →
        IsGroupBoundary (before ++ take p nodes.now) (drop p nodes.now ++ after)) }
    ensures none { IfNone result (NoStable nodes.now) }
{
    find_stable_end_of(nodes)
}

// How many of the last nodes are looked at first for the last stable point. Of 16 lists, 15 have it there.
const NEAR_END: usize = 64;

// Returns how many nodes there are up to the last natural cut with at least `near` nodes after it, if there is one.
fn cut_before<T: AsNode>(nodes: &[T], near: usize) -> Option<usize>
    ensures some { IfSome result (λ count. 0 < count) }
    ensures before { IfSome result (λ count. count + near ≤ length nodes.now) }
    ensures cut { IfSome result (λ count. EndsWithCut (take count (map T.node_of nodes.now))) }
{
    let mut count = nodes.len().checked_sub(near)?;
    'nodes: while count > 0 {
        if is_natural_cut(&nodes[count - 1].node()) {
            return Some(count);
        }
        count -= 1;
    }
    None
}

/// Does the same as [`find_stable_end`] for nodes in a form of the caller's own.
pub fn find_stable_end_of<T: AsNode>(nodes: &[T]) -> Option<usize>
    ensures bound { IfSome result (λ p. p ≤ length nodes.now) }
    ensures last { IfSome result (λ p. IsLastStable (take p (map T.node_of nodes.now)) (drop p (map T.node_of nodes.now))) }
    ensures boundary { IfSome result (λ p. (before after : List Node) →
        IsGroupBoundary (before ++ take p (map T.node_of nodes.now)) (drop p (map T.node_of nodes.now) ++ after)) }
    ensures none { IfNone result (NoStable (map T.node_of nodes.now)) }
{
    let mut near = NEAR_END;
    'near: while let Some(start) = cut_before(nodes, near) {
        let (_, late) = nodes.split_at(start);
        if let Some(found) = last_stable_of(late, true) {
            return Some(start + found);
        }
        near = late.len().saturating_mul(2);
    }
    last_stable_of(nodes, false)
}
