//! Where nodes begin and end, one after another.

ghost use Rattle.std.specs.Prelude.{◌+◌, ◌^◌, ◌<◌, IfOk};
ghost use Rattle.xet_roots.specs.Roots.{total_size};
ghost use Rattle.range_proof.specs.Steps.Places.{ArePlaces};

use std::alloc::{AllocError, Allocator};
use xet_roots::aggregated_hashes::Node;

// Returns where each of some nodes begins if the first begins at `start`, and last where the last one ends.
pub(crate) fn places<A: Allocator>(
    alloc: A,
    start: u64,
    nodes: &[Node],
) -> Result<Vec<u64, A>, AllocError>
    requires { start + total_size nodes.now < 2 ^ 64 }
    ensures { IfOk result (λ places. ArePlaces start nodes.now places.items) }
{
    let mut place = start;
    let mut places = Vec::with_capacity(alloc, nodes.len() + 1)?;
    places.push(place)?;
    'nodes: for (_, size) in nodes {
        place += *size;
        places.push(place)?;
    }
    Ok(places)
}
