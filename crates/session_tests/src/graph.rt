use std::alloc::Global;
use std::test::Fail;
use vh_graph::{Cycle, Graph, laws};
use vh_num::Refusal;

/// A graph of wires whose ends are looked at first.
fn graph(alloc: Global, n: u32, wires: &[(u32, u32)]) -> Result<Graph, Refusal<Cycle>> {
    for &(source, node) in wires {
        if source >= n || node >= n {
            return Err(Refusal::Memory);
        }
    }
    Graph::new(alloc, n, wires)
}

/// The node that a graph is refused for.
fn cycle(alloc: Global, n: u32, wires: &[(u32, u32)]) -> Option<u32> {
    match graph(alloc, n, wires) {
        Err(Refusal::Fault(cycle)) => Some(cycle.node),
        _ => None,
    }
}

#[test]
fn order_layers_and_sources_of_graphs(rt: HostRuntime) -> Result<(), Fail> {
    let alloc = rt.alloc();
    let made = graph(alloc, 4, &[(0, 2), (1, 2)])?;
    assert_eq!(rt; made.order(), &[0, 1, 2, 3][..]);
    assert_eq!(rt; made.layers(), &[0, 0, 1, 0][..]);
    // two wires between two nodes, and ready nodes that come up late
    let made = graph(alloc, 5, &[(4, 1), (4, 1), (3, 0), (1, 0), (4, 0)])?;
    assert_eq!(rt; made.order(), &[2, 3, 4, 1, 0][..]);
    assert_eq!(rt; made.layers(), &[2, 1, 0, 0, 0][..]);
    let none = graph(alloc, 0, &[])?;
    assert!(rt; none.order().is_empty() && none.layers().is_empty());
    laws::order_is_determined();
    laws::each_after_its_sources();
    laws::order_exactly_without_cycle();
    laws::sources_are_lower();
    Ok(())
}

#[test]
fn sources_stand_in_the_wires_order(rt: HostRuntime) -> Result<(), Fail> {
    let made = Graph::new(rt.alloc(), 3, &[(1, 2), (0, 2), (1, 2), (0, 1)])?;
    assert_eq!(rt; made.sources(2), &[1, 0, 1][..]);
    assert_eq!(rt; made.sources(0), &[][..]);
    Ok(())
}

#[test]
fn a_chain_written_backwards(rt: HostRuntime) -> Result<(), Fail> {
    let alloc = rt.alloc();
    let wires: Vec<(u32, u32)> = (0..63u32).map(|i| (i + 1, i)).collect(alloc)?;
    let made = graph(alloc, 64, &wires)?;
    let downward: Vec<u32> = (0..64u32).rev().collect(alloc)?;
    assert_eq!(rt; made.order(), downward.as_slice());
    assert_eq!(rt; made.layers(), downward.as_slice());
    Ok(())
}

#[test]
fn a_cycle_is_named_by_its_least_node(rt: HostRuntime) -> Result<(), Fail> {
    let alloc = rt.alloc();
    assert_eq!(rt; cycle(alloc, 3, &[(0, 1), (1, 2)]), None);
    // a wire from a node to itself
    assert_eq!(rt; cycle(alloc, 3, &[(0, 1), (1, 1), (1, 2)]), Some(1));
    // two that share no node, the one of the higher nodes written first
    assert_eq!(rt; cycle(alloc, 6, &[(4, 5), (5, 4), (3, 2), (2, 3)]), Some(2));
    // two that share one
    assert_eq!(rt; cycle(alloc, 5, &[(4, 3), (3, 4), (4, 2), (2, 4)]), Some(2));
    // a node between two cycles, and one that leads into both, are on none
    assert_eq!(rt;
        cycle(
            alloc,
            6,
            &[(0, 3), (3, 4), (4, 3), (3, 1), (1, 2), (2, 5), (5, 2)]
        ),
        Some(2)
    );
    // one cycle through all, entered at its highest node
    assert_eq!(rt;
        cycle(alloc, 5, &[(1, 4), (4, 2), (2, 3), (3, 1), (0, 4)]),
        Some(1)
    );
    // behind a long chain
    let mut wires: Vec<(u32, u32)> = (0..60u32).map(|i| (i, i + 1)).collect(alloc)?;
    wires.extend_from_slice(&[(60, 63), (63, 62), (62, 63)])?;
    assert_eq!(rt; cycle(alloc, 64, &wires), Some(62));
    Ok(())
}
