ghost use Rattle.std.specs.Prelude.{◌≡◌};
ghost use Rattle.fence_place.specs.Marked.{IsSorted, marked, slot_key};

use x64_syntax::{Marks, Slot, SlotKind};

/// A number that rises with the order of slots.
fn key_of(slot: &Slot) -> u128
    ensures { result ≡ slot_key slot.now }
{
    let kind = match slot.kind {
        SlotKind::Read => 0,
        SlotKind::Write => 1,
        SlotKind::Locked => 2,
    };
    4 * u128::from(slot.address) + kind
}

/// Whether a slot of this kind at this address is among the marks.
pub fn is_marked(marks: &Marks, address: u64, kind: SlotKind) -> bool
    requires { IsSorted marks.now.slots }
    ensures { result ≡ marked marks.now.slots (record { address = address; kind = kind }) }
{
    let key = key_of(&Slot { address, kind });
    marks
        .slots
        .as_slice()
        .binary_search_by_key(&key, key_of)
        .is_ok()
}
