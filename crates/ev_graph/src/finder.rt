ghost use Rattle.std.specs.Prelude.{◌≡◌, ◌+◌, ◌<◌, ◌≤◌, ℕ, Some, IfSome, IfNone, slice_get};
ghost use Rattle.std.specs.Option.{option_map};
ghost use Rattle.ev_graph.specs.declared.events.Item.TheVariants as item;
ghost use Rattle.ev_graph.specs.declared.events.Access.{Access as AnyAccess};
ghost use Rattle.ev_graph.specs.Events.{accesses, accesses_before, access_at, items_of};
ghost use Rattle.ev_graph.specs.FinderMark.{IsMark};

use crate::{Access, EventId, Item, ThreadRun};

/// Where the access that was looked up last stands among its thread's items, and its number there.
///
/// Looking up accesses of one thread in order, or one of them again and again, walks its items once.
#[derive(Clone, Copy)]
pub struct Finder {
    pub thread: u32,
    pub place: usize,
    pub number: u32,
}

/// The access at a place, where there is one.
fn access_in(items: &[Item], place: usize) -> Option<Access>
    ensures some { IfSome result (λ a. slice_get items.now place ≡ Some (item.Access a)) }
    ensures none { IfNone result ((a : AnyAccess) → slice_get items.now place ≡ Some (item.Access a) → ⊥) }
{
    match items.get(place) {
        Some(Item::Access(access)) => Some(*access),
        _ => None,
    }
}

/// The access with this number and its place, sought from a place before which `number` accesses stand.
fn walk(items: &[Item], from: usize, mut number: u32, index: u32) -> Option<(usize, Access)>
    requires counted { accesses_before items.now from ≡ number }
    requires ahead { number ≤ index }
    ensures found { option_map (λ found. found.1) result ≡ slice_get (accesses items.now) index }
    ensures place { IfSome result (λ found. accesses_before items.now found.0 ≡ index) }
{
    for place in from..items.len() {
        match access_in(items, place) {
            Some(access) if number == index => return Some((place, access)),
            Some(_) => number += 1,
            None => {}
        }
    }
    None
}

/// The items of a thread; none where there is no such thread.
fn items_at(threads: &[ThreadRun], thread: u32) -> &[Item]
    ensures { result.now ≡ items_of threads.now thread }
{
    match threads.get(thread as usize) {
        Some(run) => run.items.as_slice(),
        None => &[],
    }
}

impl Finder {
    /// One that has looked up nothing.
    pub fn new() -> Finder
        ensures { result ≡ record { thread = 0; place = 0; number = 0 } }
    {
        Finder {
            thread: 0,
            place: 0,
            number: 0,
        }
    }

    /// Where to seek the access with this id from: the place of the last, if it stands behind that.
    fn towards(self, threads: &[ThreadRun], id: EventId) -> Finder
        requires { IsMark threads.now self.thread self.place self.number }
        ensures mark { accesses_before (items_of threads.now id.thread) result.place ≡ result.number }
        ensures ahead { result.number ≤ id.index }
    {
        if id.thread == self.thread && self.number <= id.index {
            self
        } else {
            Finder::new()
        }
    }

    /// The access with this id, where there is one.
    pub fn find(&mut self, threads: &[ThreadRun], id: EventId) -> Option<Access>
        requires { IsMark threads.now self.old.thread self.old.place self.old.number }
        ensures mark { IsMark threads.now self.new.thread self.new.place self.new.number }
        ensures found { result ≡ access_at threads.now id }
    {
        let from = self.towards(threads, id);
        let (place, access) = walk(
            items_at(threads, id.thread),
            from.place,
            from.number,
            id.index,
        )?;
        *self = Finder {
            thread: id.thread,
            place,
            number: id.index,
        };
        Some(access)
    }
}
