ghost use Rattle.std.specs.Prelude.{◌≡◌, ◌++◌, ◌+◌, ◌<◌, ◌^◌, ℕ, IfOk, OnOk, IfSome, IfNone, Some, slice_get, length, vec_len};
ghost use Rattle.ev_graph.specs.declared.events.Access.{Access as AnyAccess};
ghost use Rattle.ev_graph.specs.Events.{accesses};
ghost use Rattle.ev_graph.specs.WellFormed.{all_accesses, IsIndexed};
ghost use Rattle.axiom_check.specs.Numbers.{firsts_from, AreNumbered, IsEdgeOf, IsNumbered};
ghost use Rattle.axiom_check.specs.Gains.{Gains};
ghost use Rattle.axiom_check.specs.Ordered.{id_at};

use ev_graph::{Access, EventId, Item, NoMemory, ThreadRun};
use std::alloc::Global;
use topo::Edge;

/// The accesses of all threads, thread by thread, and the number of each thread's first.
#[derive(Drop)]
pub struct Events {
    pub accesses: Vec<Access>,
    pub firsts: Vec<u32>,
    ghost few: { vec_len accesses < 2 ^ 32 },
}

/// An access, and its number among those of all threads.
#[derive(Clone, Copy)]
pub struct Numbered {
    pub number: u32,
    pub access: Access,
}

/// Adds the accesses among items.
pub fn push_accesses(out: &mut Vec<Access>, items: &[Item]) -> Result<(), NoMemory>
    ensures { OnOk result (out.new.items ≡ out.old.items ++ accesses items.now) }
{
    for item in items {
        if let Item::Access(access) = item {
            out.push(*access)?;
        }
    }
    Ok(())
}

impl Events {
    pub fn of(alloc: Global, threads: &[ThreadRun]) -> Result<Events, NoMemory>
        requires { IsIndexed threads.now }
        ensures accesses { IfOk result (λ events. events.accesses.items ≡ all_accesses threads.now) }
        ensures numbered { IfOk result (λ events. AreNumbered events.accesses.items events.firsts.items) }
    {
        let mut accesses = Vec::new(alloc);
        let mut firsts = Vec::new(alloc);
        for thread in threads {
            firsts.push(u32::try_from(accesses.len()).ok().ok_or(NoMemory)?)?;
            push_accesses(&mut accesses, thread.items.as_slice())?;
        }
        if u32::try_from(accesses.len()).is_err() {
            return Err(NoMemory);
        }
        Ok(Events { accesses, firsts })
    }

    /// How many accesses there are.
    pub fn count(&self) -> u32
        ensures { result ≡ length self.now.accesses.items }
    {
        self.accesses.len() as u32
    }

    /// The id of the access with this number.
    pub fn id(&self, number: u32) -> EventId
        ensures { result ≡ id_at self.now.accesses.items number }
    {
        match self.accesses.get(number as usize) {
            Some(access) => access.id,
            None => EventId {
                thread: 0,
                index: 0,
            },
        }
    }

    /// The number that the access with this id would have.
    fn number(&self, id: EventId) -> u64
        ensures { (first : ℕ) → slice_get self.now.firsts.items id.thread ≡ Some first → result ≡ first + id.index }
    {
        match self.firsts.get(id.thread as usize) {
            Some(first) => u64::from(*first) + u64::from(id.index),
            None => u64::MAX,
        }
    }

    /// The access with this id, where there is one.
    pub fn look(&self, id: EventId) -> Option<Numbered>
        requires { AreNumbered self.now.accesses.items self.now.firsts.items }
        ensures some { IfSome result (λ found. IsNumbered self.now.accesses.items id found.number found.access) }
        ensures none { IfNone result ((number : ℕ) (a : AnyAccess) → IsNumbered self.now.accesses.items id number a → ⊥) }
    {
        let number = self.number(id);
        match self.accesses.get(number as usize) {
            Some(access) if access.id == id => Some(Numbered {
                number: number as u32,
                access: *access,
            }),
            _ => None,
        }
    }
}

/// The edge from one access to another, where there are such accesses.
pub fn push_edge(
    edges: &mut Vec<Edge>,
    events: &Events,
    first: EventId,
    second: EventId,
) -> Result<(), NoMemory>
    requires { AreNumbered events.now.accesses.items events.now.firsts.items }
    ensures { OnOk result (Gains (IsEdgeOf events.now.accesses.items first second) edges.old.items edges.new.items) }
{
    let Some(from) = events.look(first) else {
        return Ok(());
    };
    let Some(to) = events.look(second) else {
        return Ok(());
    };
    edges.push(Edge {
        from: from.number,
        to: to.number,
    })?;
    Ok(())
}
