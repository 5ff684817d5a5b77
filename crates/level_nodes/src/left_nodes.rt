//! The left nodes of a level, with room before the first one.

ghost use Rattle.std.specs.Prelude.{◌≡◌, ◌+◌, ◌-◌, ◌≤◌, ◌++◌, length, drop, IfOk, OnOk, OnErr};

use std::alloc::{AllocError, Allocator};
use std::marker::Model;
use xet_hash::data_hash::MerkleHash;
use xet_roots::aggregated_hashes::Node;

// The left nodes of a level. More nodes can be added before or after them. On average each node is then copied a
// constant number of times.
#[derive(Debug, Drop)]
pub(crate) struct LeftNodes<A: Allocator> {
    // First nodes without meaning, as room for nodes that will be put before the left nodes. Then the left nodes.
    nodes: Vec<Node, A>,
    // How many of the nodes are room.
    room: usize,
}

impl<A: Allocator> Model for LeftNodes<A> {
    ghost use Rattle.std.specs.Prelude.{◌≤◌, List, length, drop};
    ghost use Rattle.xet_roots.specs.Groups.{Node};

    ghost Value = { List Node };

    ghost view = { λ stored. drop stored.room stored.nodes.items };

    ghost invariant = { λ stored. stored.room ≤ length stored.nodes.items };
}

// Returns the nodes after `room` others, which have no meaning.
fn with_room<A: Allocator>(
    alloc: A,
    room: usize,
    nodes: &[Node],
) -> Result<Vec<Node, A>, AllocError>
    ensures len { IfOk result (λ all. length all.items ≡ room + length nodes.now) }
    ensures nodes { IfOk result (λ all. drop room all.items ≡ nodes.now) }
{
    let len = room.checked_add(nodes.len()).ok_or(AllocError)?;
    let mut all = Vec::with_capacity(alloc, len)?;
    all.resize(room, (MerkleHash::default(), 0))?;
    all.extend_from_slice(nodes)?;
    Ok(all)
}

// Writes nodes into the places before `end`.
fn put_before<A: Allocator>(nodes: &mut Vec<Node, A>, end: usize, more: &[Node])
    requires room { length more.now ≤ end }
    requires end { end ≤ length nodes.old.items }
    ensures len { length nodes.new.items ≡ length nodes.old.items }
    ensures put { drop (end - length more.now) nodes.new.items ≡ more.now ++ drop end nodes.old.items }
{
    let mut at = end;
    let mut rest = more;
    'nodes: while let [others @ .., node] = rest {
        at -= 1;
        nodes[at] = *node;
        rest = others;
    }
}

impl<A: Allocator> LeftNodes<A> {
    // Makes left nodes without room.
    pub(crate) fn new(nodes: Vec<Node, A>) -> Self
        ensures { result ≡ nodes.items }
    {
        LeftNodes { nodes, room: 0 }
    }

    pub(crate) fn as_slice(&self) -> &[Node]
        ensures { result.now ≡ self.now }
    {
        &self.nodes[self.room..]
    }

    // Puts nodes after them.
    pub(crate) fn extend(&mut self, more: &[Node]) -> Result<(), AllocError>
        ensures extended { OnOk result (self.new ≡ self.old ++ more.now) }
        ensures unchanged { OnErr result (self.new ≡ self.old) }
    {
        self.nodes.extend_from_slice(more)
    }
}

impl<A: Allocator + Clone> LeftNodes<A> {
    // Puts nodes before them. If there isn't enough room, it makes room for them and for as many nodes as there are.
    pub(crate) fn prepend(&mut self, more: &[Node]) -> Result<(), AllocError>
        ensures prepended { OnOk result (self.new ≡ more.now ++ self.old) }
        ensures unchanged { OnErr result (self.new ≡ self.old) }
    {
        if self.room < more.len() {
            let alloc = self.nodes.allocator().clone()?;
            let nodes = self.as_slice();
            let room = more.len().checked_add(nodes.len()).ok_or(AllocError)?;
            *self = LeftNodes {
                nodes: with_room(alloc, room, nodes)?,
                room,
            };
        }
        put_before(&mut self.nodes, self.room, more);
        self.room -= more.len();
        Ok(())
    }
}
