ghost use Rattle.std.specs.Prelude.{◌≡◌, ◌+◌, ◌<◌, ◌≤◌, ◌^◌, ◌++◌, ℕ, [], List as Sequence, OnOk};
ghost use Rattle.ev_graph.specs.declared.events.Item.{Item as AnyItem};
ghost use Rattle.ev_graph.specs.declared.events.Item.TheVariants as items;
ghost use Rattle.arm_replay.specs.Walking.{option_item, fence_item, listed, one, count_in, Keeps};

use a64_table::{FenceChoice, RowItems};
use ev_graph::{Access, EventId, FenceItem, Item, Transfer};
use std::alloc::{AllocError, Global};

/// What a thread has made, its accesses named, and how many accesses, inputs and outputs, and how many
/// accesses among them.
#[derive(Drop)]
pub(crate) struct Made {
    pub(crate) items: Vec<Item>,
    pub(crate) count: u32,
    pub(crate) accesses: u32,
}

impl Made {
    /// Nothing yet.
    pub(crate) fn new(alloc: Global) -> Made
        ensures keeps { (thread : ℕ) → Keeps thread [] result }
        ensures none { (result.count ≡ 0) × (result.accesses ≡ 0) }
    {
        Made {
            items: Vec::new(alloc),
            count: 0,
            accesses: 0,
        }
    }

    /// One fence more, if there is one.
    fn fence(&mut self, place: u64, fence: FenceChoice) -> Result<(), AllocError>
        ensures keeps { OnOk result ((thread : ℕ) (is : Sequence AnyItem) → Keeps thread is self.old → Keeps thread (is ++ fence_item place fence) self.new) }
        ensures count { OnOk result ((self.new.count ≡ self.old.count) × (self.new.accesses ≡ self.old.accesses)) }
    {
        if let FenceChoice::Dmb(kind) = fence {
            self.items.push(Item::Fence(FenceItem { kind, place }))?;
        }
        Ok(())
    }

    /// One input more, if there is one.
    fn input(&mut self, place: u64, value: Option<u64>) -> Result<(), AllocError>
        requires { self.old.count + one value < 2 ^ 32 }
        ensures keeps { OnOk result ((thread : ℕ) (is : Sequence AnyItem) → Keeps thread is self.old
            → Keeps thread (is ++ option_item (λ v. items.Input (record { value = v; place = place })) value) self.new) }
        ensures count { OnOk result ((self.new.count ≡ self.old.count + one value) × (self.new.accesses ≡ self.old.accesses)) }
    {
        if let Some(value) = value {
            self.items.push(Item::Input(Transfer { value, place }))?;
            self.count += 1;
        }
        Ok(())
    }

    /// One output more, if there is one.
    fn output(&mut self, place: u64, value: Option<u64>) -> Result<(), AllocError>
        requires { self.old.count + one value < 2 ^ 32 }
        ensures keeps { OnOk result ((thread : ℕ) (is : Sequence AnyItem) → Keeps thread is self.old
            → Keeps thread (is ++ option_item (λ v. items.Output (record { value = v; place = place })) value) self.new) }
        ensures count { OnOk result ((self.new.count ≡ self.old.count + one value) × (self.new.accesses ≡ self.old.accesses)) }
    {
        if let Some(value) = value {
            self.items.push(Item::Output(Transfer { value, place }))?;
            self.count += 1;
        }
        Ok(())
    }

    /// One access more, if there is one, with the name that it has in its thread.
    fn access(&mut self, thread: u32, access: Option<Access>) -> Result<(), AllocError>
        requires room { self.old.count + one access < 2 ^ 32 }
        requires within { self.old.accesses ≤ self.old.count }
        ensures keeps { OnOk result ((is : Sequence AnyItem) → Keeps thread is self.old
            → Keeps thread (is ++ option_item items.Access access) self.new) }
        ensures count { OnOk result ((self.new.count ≡ self.old.count + one access) × (self.new.accesses ≤ self.new.count)) }
    {
        if let Some(access) = access {
            let id = EventId {
                thread,
                index: self.accesses,
            };
            self.items.push(Item::Access(Access { id, ..access }))?;
            self.accesses += 1;
            self.count += 1;
        }
        Ok(())
    }

    /// What a row at a place has made more.
    pub(crate) fn row(
        &mut self,
        thread: u32,
        place: u64,
        made: &RowItems,
        fence: FenceChoice,
    ) -> Result<(), AllocError>
        requires room { self.old.count + count_in made.now < 2 ^ 32 }
        requires within { self.old.accesses ≤ self.old.count }
        ensures keeps { OnOk result ((is : Sequence AnyItem) → Keeps thread is self.old
            → Keeps thread (is ++ listed place made.now fence) self.new) }
        ensures count { OnOk result ((self.new.count ≡ self.old.count + count_in made.now) × (self.new.accesses ≤ self.new.count)) }
    {
        self.fence(place, fence)?;
        self.input(place, made.input)?;
        self.output(place, made.output)?;
        self.access(thread, made.read)?;
        self.access(thread, made.write)?;
        Ok(())
    }
}
