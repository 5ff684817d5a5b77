//! Adjacent ranges, and which of them are merged first.

ghost use Rattle.std.specs.Prelude.{◌≡◌, ◌+◌, ◌-◌, ◌^◌, ◌<◌, List, [], ◌∷◌, ◌++◌, Some, None, flat_map, map, IfOk, IfErr, IfSome};
ghost use Rattle.std.specs.List.{AllZip};
ghost use Rattle.xet_roots.specs.Groups.{Node};
ghost use Rattle.chunk_ranges.specs.MergeTree.{leaves, first_leaf, last_leaf};
ghost use Rattle.chunk_ranges.specs.Ranges.{NoMarkBetween, Refusals, total_of};
ghost use Rattle.chunk_ranges.specs.Steps.Adjacent.{IsPassed};
ghost use Rattle.chunk_ranges.specs.Steps.Bracketing.{entries, depth, AreBegun, TurnsTo, IsBegun, Follow};
ghost use Rattle.chunk_ranges.specs.Steps.RangeMerging.{JoinsTo};

use crate::adjacent::Passed;
use crate::chunk_range::ChunkRange;
use std::alloc::Global;
use std::mem;
use xet_roots::error::CoreError;

/// Adjacent ranges under a bracketing.
#[derive(Drop)]
pub enum MergeTree<R: ChunkRange> {
    /// One range.
    Leaf(R),
    /// The result of the left tree, merged with the result of the right tree.
    Join(Box<MergeTree<R>>, Box<MergeTree<R>>),
}

// Two trees after a turn: the first as a leaf, and the second; or both as one tree, whose first part is lower by one.
enum Turned<R: ChunkRange> {
    Taken(R, MergeTree<R>),
    Lowered(MergeTree<R>),
}

// Turns two trees. It allocates nothing.
fn turn<R: ChunkRange>(left: Box<MergeTree<R>>, right: Box<MergeTree<R>>) -> Turned<R>
    ensures { TurnsTo left.value right.value result }
{
    let mut left = left;
    let mut right = right;
    mem::swap(&mut left, &mut right);
    if let MergeTree::Join(inner, next) = right.as_mut() {
        mem::swap(&mut left, inner);
        mem::swap(inner, next);
        return Turned::Lowered(MergeTree::Join(left, right));
    }
    match Box::into_inner(right) {
        MergeTree::Leaf(range) => Turned::Taken(range, Box::into_inner(left)),
        joined => Turned::Lowered(joined),
    }
}

// The leaves that were taken from a tree, each with the number of joins that begin with it.
#[derive(Drop)]
struct Order<R: ChunkRange> {
    entries: Vec<(usize, R)>,
    // How many joins have begun with the next leaf.
    begun: usize,
    // How many of the joins along the right side of the remaining tree have begun.
    links: usize,
}

impl<R: ChunkRange> Order<R> {
    fn new(alloc: Global) -> Self
        ensures entries { result.entries.items ≡ [] }
        ensures begun { result.begun ≡ 0 }
        ensures links { result.links ≡ 0 }
    {
        Order {
            entries: Vec::new(alloc),
            begun: 0,
            links: 0,
        }
    }
}

// Begins the join at the top of the remaining tree, unless it has begun.
fn begin<R: ChunkRange>(order: Option<Order<R>>) -> Option<Order<R>>
    ensures { Follow order result (λ old new. (new.entries.items ≡ old.entries.items) × IsBegun old.begun old.links new.begun new.links) }
{
    let order = order?;
    if order.links > 0 {
        return Some(order);
    }
    Some(Order {
        begun: order.begun.checked_add(1)?,
        entries: order.entries,
        links: 1,
    })
}

// Begins one more join with the next leaf.
fn lower<R: ChunkRange>(order: Option<Order<R>>) -> Option<Order<R>>
    ensures { Follow order result (λ old new. (new.entries.items ≡ old.entries.items) × (new.begun ≡ old.begun + 1) × (new.links ≡ old.links + 1)) }
{
    let order = order?;
    Some(Order {
        begun: order.begun.checked_add(1)?,
        links: order.links.checked_add(1)?,
        entries: order.entries,
    })
}

// Takes the next leaf.
fn take<R: ChunkRange>(order: Option<Order<R>>, range: R) -> Option<Order<R>>
    ensures { Follow order result (λ old new. (new.entries.items ≡ old.entries.items ++ (old.begun, range) ∷ [])
        × (new.begun ≡ 0) × (new.links ≡ old.links - 1)) }
{
    let order = order?;
    let mut entries = order.entries;
    entries.push((order.begun, range)).ok()?;
    Some(Order {
        entries,
        begun: 0,
        links: order.links.saturating_sub(1),
    })
}

// Returns the leaves of a tree, each with the number of joins that begin with it, or `None` if an allocation fails.
// Also returns what is known of the ranges, which needs no memory.
fn take_apart<R: ChunkRange>(alloc: Global, tree: MergeTree<R>) -> (Option<Order<R>>, Passed)
    ensures order { IfSome result.0 (λ order. order.entries.items ≡ entries 0 tree) }
    ensures passed { IsPassed R.start R.end R.total result.1 (leaves tree) }
{
    let mut order = Some(Order::new(alloc));
    let mut passed = Passed::new();
    let mut tree = tree;
    'leaves: loop {
        match tree {
            MergeTree::Leaf(range) => {
                let passed = passed.pass(&range);
                return (take(order, range), passed);
            }
            MergeTree::Join(left, right) => {
                order = begin(order);
                match turn(left, right) {
                    Turned::Taken(range, rest) => {
                        passed = passed.pass(&range);
                        order = take(order, range);
                        tree = rest;
                    }
                    Turned::Lowered(lowered) => {
                        order = lower(order);
                        tree = lowered;
                    }
                }
            }
        }
    }
}

// Merges the leaves of a tree in the order of its bracketing.
fn join_entries<R: ChunkRange>(alloc: Global, entries: Vec<(usize, R)>) -> Result<R, CoreError>
    requires begun { AreBegun entries.items 0 }
    requires one { depth entries.items 0 ≡ 1 }
    requires marks { NoMarkBetween R.start R.end (map (λ entry. entry.1) entries.items) }
    requires fits { total_of R.total (map (λ entry. entry.1) entries.items) < 2 ^ 64 }
    ensures joined { IfOk result (λ range. JoinsTo R.stands R.start R.end R.total (map (λ entry. entry.1) entries.items) (range ∷ [])) }
    ensures errors { IfErr result (λ e. e ≡ CoreError.OutOfMemory) }
{
    let mut entries = entries;
    let mut values: Vec<R> = Vec::new(alloc);
    'entries: while let Some((begun, range)) = entries.pop() {
        let mut range = range;
        'begun: for _ in 0..begun {
            let back = values.pop().unwrap();
            range.join(&back)?;
        }
        values.push(range)?;
    }
    Ok(values.pop().unwrap())
}

impl<R: ChunkRange> MergeTree<R> {
    /// Merges the ranges in the order of the tree's bracketing. The result stands for all lists in order, with the
    /// start mark of the first range and the end mark of the last one. It doesn't recurse, so a deep tree needs no more
    /// stack than a shallow one.
    ///
    /// It checks all ranges first. Fails with [`CoreError::InvalidArguments`] if a range other than the first is marked
    /// at its start, or one other than the last at its end. Otherwise fails with [`CoreError::SizeOverflow`] if the
    /// sizes of all ranges add up to more than `u64::MAX`. Fails with [`CoreError::OutOfMemory`] if an allocation
    /// fails. The tree is consumed in every case.
    pub fn run(self) -> Result<R, CoreError>
        ensures stands { IfOk result (λ range. (lists : List (List Node)) →
            AllZip R.stands (leaves self) lists → R.stands range (flat_map (λ list. list) lists)) }
        ensures start { IfOk result (λ range. R.start range ≡ R.start (first_leaf self)) }
        ensures end { IfOk result (λ range. R.end range ≡ R.end (last_leaf self)) }
        ensures total { IfOk result (λ range. R.total range ≡ total_of R.total (leaves self)) }
        ensures refusals { Refusals (NoMarkBetween R.start R.end (leaves self)) (total_of R.total (leaves self)) result }
    {
        match self {
            MergeTree::Leaf(range) => match Passed::new().pass(&range).refusal() {
                Some(error) => Err(error),
                None => Ok(range),
            },
            MergeTree::Join(left, right) => {
                let alloc = *Box::allocator(&left);
                let (order, passed) = take_apart(alloc, MergeTree::Join(left, right));
                if let Some(error) = passed.refusal() {
                    return Err(error);
                }
                let Some(order) = order else {
                    return Err(CoreError::OutOfMemory);
                };
                Ok(join_entries(alloc, order.entries)?)
            }
        }
    }
}
