use crate::*;
use ev_graph::NoMemory;
use std::alloc::Global;
use std::test::Fail;

/// The nodes 1, 2, .. up to the last, each of which weighs as much as its number and leads to the next.
///
/// The successors of the last can't be had.
#[derive(Drop)]
struct Steps {
    last: u64,
}

impl Graph for Steps {
    ghost use Rattle.std.specs.Prelude.{◌+◌, [], ◌∷◌};

    ghost weight_of = { λ steps node. node };

    ghost successors_of = { λ steps node. (node + 1) ∷ [] };

    fn weight(&self, node: u64) -> u64 {
        node
    }

    fn successors(&self, node: u64, into: &mut Vec<u64>) -> Result<(), NoMemory> {
        if node >= self.last {
            return Err(NoMemory);
        }
        into.push(node + 1)?;
        Ok(())
    }
}

/// 0 leads to 1 and 2, which lead to 3; 3 leads back to 1; 4 leads to 0.
fn diamond(alloc: Global) -> Result<Rows, NoMemory> {
    let mut rows = Rows::new(alloc);
    rows.push(&[1, 2])?;
    rows.push(&[3])?;
    rows.push(&[3])?;
    rows.push(&[1])?;
    rows.push(&[0])?;
    Ok(rows)
}

fn sorted(alloc: Global, nodes: &Nodes) -> Result<Vec<u64>, NoMemory> {
    let mut all = Vec::from_slice(alloc, nodes.as_slice())?;
    all.sort_unstable();
    Ok(all)
}

#[test]
fn all_that_is_reached_within_the_limit(rt: HostRuntime) -> Result<(), Fail> {
    let rows = diamond(rt.alloc())?;
    for (starts, limit, want) in [
        (&[0_u64][..], 4_u64, Some(&[0_u64, 1, 2, 3][..])),
        (&[0], 3, None),
        (&[3, 3], 2, Some(&[1, 3])),
        (&[9, 4], 100, Some(&[0, 1, 2, 3, 4, 9])),
        (&[], 0, Some(&[])),
    ] {
        let found = reach(rt.alloc(), &rows, starts, limit)?;
        match (&found, want) {
            (Some(nodes), Some(want)) => assert_eq!(rt;
                sorted(rt.alloc(), nodes)?.as_slice(),
                want
            ),
            (None, None) => {}
            _ => panic!(rt; "the other answer is right"),
        }
    }
    Ok(())
}

#[test]
fn the_search_stops_before_a_node_over_the_limit(rt: HostRuntime) -> Result<(), Fail> {
    let steps = Steps { last: 4 };
    // 1 + 2 + 3 is 6, and 4 more are over 9: the successors of 4, which can't be had, are not asked for.
    assert!(rt; reach(rt.alloc(), &steps, &[1], 9)?.is_none());
    assert!(rt; reach(rt.alloc(), &steps, &[1], 10).is_err());
    Ok(())
}

#[test]
fn the_first_source_that_reaches_a_node(rt: HostRuntime) -> Result<(), Fail> {
    let rows = diamond(rt.alloc())?;
    let sources = first_sources(rt.alloc(), &rows, &[2, 4, 3, 2])?;
    for (node, want) in [
        (0, Some(4)),
        (1, Some(2)),
        (2, Some(2)),
        (3, Some(2)),
        (4, Some(4)),
        (5, None),
    ] {
        assert_eq!(rt; sources.of(node), want, "at {node}");
    }
    Ok(())
}

#[test]
fn nodes_in_the_order_in_which_they_were_found(rt: HostRuntime) -> Result<(), Fail> {
    let rows = diamond(rt.alloc())?;
    let Some(nodes) = reach(rt.alloc(), &rows, &[4], 5)? else {
        panic!(rt; "five nodes weigh 5");
    };
    assert_eq!(rt; nodes.as_slice(), [4, 0, 1, 2, 3].as_slice());
    assert_eq!(rt; nodes.len(), 5);
    assert!(rt; !nodes.is_empty());
    assert_eq!(rt; nodes.place_of(2), Some(3));
    assert_eq!(rt; nodes.place_of(5), None);
    assert!(rt; nodes.contains(1) && !nodes.contains(5));
    Ok(())
}

#[test]
fn rows_are_those_that_were_put(rt: HostRuntime) -> Result<(), Fail> {
    let rows = diamond(rt.alloc())?;
    assert_eq!(rt; rows.len(), 5);
    assert_eq!(rt; rows.row(0), [1, 2].as_slice());
    assert_eq!(rt; rows.row(5), [].as_slice());
    assert_eq!(rt; rows.weight(5), 1);
    Ok(())
}

#[test]
fn what_leads_to_a_node_by_turned_edges(rt: HostRuntime) -> Result<(), Fail> {
    let rows = diamond(rt.alloc())?;
    let Some(nodes) = reach(rt.alloc(), &rows, &[4], 5)? else {
        panic!(rt; "five nodes weigh 5");
    };
    let back = Backwards::of(rt.alloc(), &rows, &nodes)?;
    // All lead to 3 in the end; none but 4 leads to 4; 4 leads to 2 by way of 0.
    for (node, want) in [(3, &[0_u64, 1, 2, 3, 4][..]), (4, &[4]), (2, &[0, 2, 4])] {
        let Some(found) = reach(rt.alloc(), &back, &[node], 5)? else {
            panic!(rt; "five nodes weigh 5");
        };
        assert_eq!(rt; sorted(rt.alloc(), &found)?.as_slice(), want);
    }
    let sources = first_sources(rt.alloc(), &back, &[2, 3])?;
    assert_eq!(rt; sources.of(0), Some(2));
    assert_eq!(rt; sources.of(1), Some(3));
    Ok(())
}
