ghost use Rattle.std.specs.Prelude.{◌≡◌, ◌↔◌, IfOk, IfSome, IsNone, MatchOption, length, map};
ghost use Rattle.ev_graph.specs.WellFormed.{all_accesses};
ghost use Rattle.order_models.specs.Consistent.{ExternalPair, SomeKind};
ghost use Rattle.axiom_check.specs.External.{IsJudgeable};
ghost use Rattle.axiom_check.specs.Lanes.{HasRound, IsOrderOf};
ghost use Rattle.axiom_check.specs.Numbers.{AreNumbered, Told};
ghost use Rattle.axiom_check.specs.Ordered.{IsEventOrder, HasExternalCycle, id_at};

use crate::events::Events;
use crate::external::external;
use ev_graph::{EventId, Execution, List, NoMemory};
use order_models::OrderModel;
use std::alloc::Global;

/// An order of all accesses in which each pair of the axiom External goes forward; None where these pairs have a cycle.
///
/// The pairs are what the order `M` keeps within a thread, and reads-from, from-reads and coherence
/// between threads; for x86-TSO also from-reads and coherence within a thread. Some names each access
/// once. Which order, where there are several, is open.
///
/// The execution has ids, locked pairs and entries of `rf` as its threads say, each source is the start
/// or a write that covers that byte, and `co` has each write once and nothing else. It has at most 16
/// threads and 4,096 accesses, of 1 to 8 bytes each.
///
/// Takes time near-linear in the accesses and items. NoMemory comes where memory is not there.
/// Source: the axioms of herding cats (Alglave, Maranget, Tautschnig, TOPLAS 2014).
pub fn order_of<M: OrderModel>(
    alloc: Global,
    x: &Execution,
) -> Result<Option<List<EventId>>, NoMemory>
    requires { IsJudgeable x.now }

    // Each pair of External goes forward.
    ensures order { IfOk result (λ found. IfSome found (λ ids. IsEventOrder M.order M.INTERNAL x.now ids)) }

    // There is none just where these pairs have a cycle.
    ensures cyclic { IfOk result (λ found. IsNone found ↔ HasExternalCycle M.order M.INTERNAL x.now) }
{
    let events = Events::of(alloc, x.threads.as_slice())?;
    match order_numbers::<M>(alloc, &events, x)? {
        Some(order) => Ok(Some(List::of(ids_of(alloc, &events, order.as_slice())?))),
        None => Ok(None),
    }
}

/// The numbers of all accesses in an order in which each pair of External goes forward; None where they have a cycle.
fn order_numbers<M: OrderModel>(
    alloc: Global,
    events: &Events,
    x: &Execution,
) -> Result<Option<Vec<u32>>, NoMemory>
    requires judgeable { IsJudgeable x.now }
    requires all { events.now.accesses.items ≡ all_accesses x.now.threads }
    requires numbered { AreNumbered events.now.accesses.items events.now.firsts.items }
    ensures { IfOk result (λ found. let pairs = Told events.now.accesses.items (SomeKind (ExternalPair M.order M.INTERNAL x.now)) in
        MatchOption found (HasRound pairs) (λ order. IsOrderOf (length events.now.accesses.items) pairs order.items)) }
{
    let lanes = external::<M>(alloc, events, x)?;
    let found = lanes.order(alloc, events.count())?;
    Ok(found)
}

/// The ids of the accesses with these numbers.
fn ids_of(alloc: Global, events: &Events, numbers: &[u32]) -> Result<Vec<EventId>, NoMemory>
    ensures { IfOk result (λ ids. ids.items ≡ map (λ v. id_at events.now.accesses.items v) numbers.now) }
{
    Ok(numbers.iter().map(|v| events.id(*v)).collect(alloc)?)
}
