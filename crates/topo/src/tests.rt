use crate::*;
use std::test::Fail;

// Store buffering: 0 and 1 are the write and the read of one thread, 2 and 3 those of the other.
// Each read finds the start, so it comes before the other thread's write; a fence orders a thread's pair too.

#[test]
fn store_buffering_has_an_order(rt: HostRuntime) -> Result<(), Fail> {
    let pairs = [Edge { from: 1, to: 2 }, Edge { from: 3, to: 0 }];
    let TopoAnswer::Order(order) = order_or_cycle(rt.alloc(), 4, &pairs)? else {
        panic!(rt; "these pairs have no cycle");
    };
    let order = order.as_slice();
    assert_eq!(rt; order.len(), 4);
    let place = |number: u32| order.iter().position(|v| *v == number);
    assert!(rt; place(0).is_some() && place(1).is_some());
    assert!(rt; place(1) < place(2));
    assert!(rt; place(3) < place(0));
    Ok(())
}

#[test]
fn store_buffering_with_fences_has_a_cycle(rt: HostRuntime) -> Result<(), Fail> {
    let pairs = [
        Edge { from: 0, to: 1 },
        Edge { from: 1, to: 2 },
        Edge { from: 2, to: 3 },
        Edge { from: 3, to: 0 },
    ];
    let TopoAnswer::Cycle(cycle) = order_or_cycle(rt.alloc(), 4, &pairs)? else {
        panic!(rt; "these pairs have a cycle");
    };
    let cycle = cycle.as_slice();
    assert_eq!(rt; cycle.len(), 4);
    for (place, number) in cycle.iter().enumerate() {
        assert!(rt; *number < 4);
        assert_eq!(rt; cycle[(place + 1) % 4], (*number + 1) % 4);
    }
    Ok(())
}

#[test]
fn a_number_alone_has_an_order(rt: HostRuntime) -> Result<(), Fail> {
    let answer = order_or_cycle(rt.alloc(), 1, &[])?;
    assert!(rt; matches!(&answer, TopoAnswer::Order(order) if order.as_slice() == [0].as_slice()));
    Ok(())
}

#[test]
fn an_edge_to_itself_is_a_cycle(rt: HostRuntime) -> Result<(), Fail> {
    let answer = order_or_cycle(rt.alloc(), 2, &[Edge { from: 1, to: 1 }])?;
    assert!(rt; matches!(&answer, TopoAnswer::Cycle(cycle) if cycle.as_slice() == [1].as_slice()));
    Ok(())
}
