//! How far each node is from where the signal comes in.

ghost use Rattle.std.specs.Prelude.{◌≡◌, ◌≤◌, ◌<◌, ◌^◌, ◌-◌, List, ℕ, length, All, slice_index_or, IfOk};
ghost use Rattle.vh_graph.specs.Paths.{AreLinked, AreLayers};
ghost use Rattle.vh_graph.specs.Order.{IsOrder};
ghost use Rattle.vh_graph.specs.Steps.{IsAbove};

use std::alloc::{AllocError, Global};

/// One above the highest layer of these sources, or 0 where there is none.
fn layer_above(layers: &[u32], sources: &[u32]) -> u32
    requires within { All (λ source. source < length layers.now) sources.now }
    requires bound { All (λ layer. layer < 2 ^ 32 - 1) layers.now }
    ensures { IsAbove layers.now sources.now result }
{
    let mut layer = 0;
    for &source in sources {
        layer = layer.max(layers[source as usize] + 1);
    }
    layer
}

/// The layer of each node: its longest distance from a node without sources.
pub(crate) fn layers_of(
    alloc: Global,
    sources: &[Vec<u32>],
    order: &[u32],
) -> Result<Vec<u32>, AllocError>
    requires count { length sources.now < 2 ^ 32 }
    requires fits { length order.now ≤ length sources.now }
    requires ordered { (wires : List (ℕ × ℕ)) × AreLinked wires sources.now × IsOrder (length sources.now) wires order.now }
    ensures long { IfOk result (λ layers. length layers.items ≡ length sources.now) }
    ensures layers { (wires : List (ℕ × ℕ)) → AreLinked wires sources.now → IsOrder (length sources.now) wires order.now → IfOk result (λ layers. AreLayers wires layers.items) }
{
    let mut layers = vec![in alloc; 0u32; sources.len()]?;
    for &node in order {
        layers[node as usize] = layer_above(&layers, &sources[node as usize]);
    }
    Ok(layers)
}
