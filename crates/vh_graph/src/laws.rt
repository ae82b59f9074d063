//! What the rules on the order come to.

ghost use Rattle.vh_graph.specs.Laws.{OrderIsDetermined, EachAfterItsSources, OrderExactlyWithoutCycle, SourcesAreLower};

/// There is at most one order of a graph.
pub fn order_is_determined()
    ensures { OrderIsDetermined }
{}

/// Every node stands after its sources.
pub fn each_after_its_sources()
    ensures { EachAfterItsSources }
{}

/// A graph has an order exactly where no node is on a cycle.
pub fn order_exactly_without_cycle()
    ensures { OrderExactlyWithoutCycle }
{}

/// A node's sources are in lower layers, so that the nodes of one layer don't wait for each other.
pub fn sources_are_lower()
    ensures { SourcesAreLower }
{}
