ghost use Rattle.std.specs.Prelude.{◌≡◌, ◌<◌, ◌≤◌, ◌↔◌, IsTrue};
ghost use Rattle.std.specs.Option.{option_map};
ghost use Rattle.ev_graph.specs.Memory.{Cell, cells_of, stack_part};
ghost use Rattle.ev_graph.specs.Start.{start_at, is_in_stacks};

use crate::{Stack, StartMemory};

/// Whether the address lies in one of the stacks.
fn is_in_a_stack(stacks: &[Stack], address: u64) -> bool
    ensures { result ≡ is_in_stacks stacks.now address }
{
    stacks
        .iter()
        .any(|stack| stack.lo <= address && address < stack.hi)
}

/// The byte at an address at the start: a segment's, and zero in a stack.
pub fn first_byte<S: StartMemory>(stacks: &[Stack], start: &S, address: u64) -> Option<u8>
    ensures { result ≡ start_at (S.cells start.now) stacks.now address }
{
    match start.start_byte(address) {
        Some(byte) => Some(byte),
        None if is_in_a_stack(stacks, address) => Some(0),
        None => None,
    }
}
