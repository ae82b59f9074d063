//! The wires by node.

ghost use Rattle.std.specs.Prelude.{◌≡◌, ◌≤◌, ◌<◌, ℕ, [], All, length, slice_index_or, IfOk};
ghost use Rattle.vh_graph.specs.Paths.{AreLinked};

use std::alloc::{AllocError, Global};

/// As many empty lists.
pub(crate) fn empty_lists(alloc: Global, nodes: u32) -> Result<Vec<Vec<u32>>, AllocError>
    ensures long { IfOk result (λ lists. length lists.items ≡ nodes) }
    ensures empty { IfOk result (λ lists. All (λ list. list.items ≡ []) lists.items) }
{
    let mut lists = Vec::new(alloc);
    for _ in 0..nodes {
        lists.push(Vec::new(alloc))?;
    }
    Ok(lists)
}

/// The sources of each node, in the wires' order.
pub(crate) fn sources_by_node(
    alloc: Global,
    nodes: u32,
    wires: &[(u32, u32)],
) -> Result<Vec<Vec<u32>>, AllocError>
    requires within { All (λ wire. (wire.0 < nodes) × (wire.1 < nodes)) wires.now }
    ensures long { IfOk result (λ sources. length sources.items ≡ nodes) }
    ensures linked { IfOk result (λ sources. AreLinked wires.now sources.items) }
{
    let mut sources = empty_lists(alloc, nodes)?;
    for &(source, node) in wires {
        sources[node as usize].push(source)?;
    }
    Ok(sources)
}
