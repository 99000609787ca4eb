ghost use Rattle.topo.specs.Order.{OrderExcludesCycle};

/// Where the numbers have an order in which every edge goes forward, the edges have no cycle.
pub fn order_excludes_cycle()
    ensures { OrderExcludesCycle }
{}
