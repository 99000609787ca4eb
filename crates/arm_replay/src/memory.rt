ghost use Rattle.std.specs.Prelude.{◌≡◌};
ghost use Rattle.ev_graph.specs.Memory.{permits};
ghost use Rattle.ev_graph.specs.Start.{is_in_stacks};
ghost use Rattle.arm_replay.specs.Memories.{low_cells};

use elf_write::Image;
use ev_graph::{Stack, StartMemory};

/// What the threads of an image see: its memory, and their stacks, which are zero at the start.
#[derive(Clone, Copy)]
pub(crate) struct ThreadMemory<'a> {
    pub(crate) image: &'a Image,
    pub(crate) stacks: &'a [Stack],
}

impl ThreadMemory<'_> {
    /// Whether the address lies in one of the stacks.
    fn is_in_a_stack(&self, address: u64) -> bool
        ensures { result ≡ is_in_stacks self.now.stacks.now address }
    {
        self.stacks
            .iter()
            .any(|stack| stack.lo <= address && address < stack.hi)
    }

    /// Whether the byte at an address may be read, or written where `write` is true.
    fn permits(&self, address: u64, write: bool) -> bool
        ensures { result ≡ permits write (low_cells self.now.image.now self.now.stacks.now address) }
    {
        match self.image.start_byte(address) {
            Some(_) => self.image.allows(address, 1, write),
            None => self.is_in_a_stack(address),
        }
    }
}

impl StartMemory for ThreadMemory<'_> {
    ghost cells = { λ memory. low_cells memory.image.now memory.stacks.now };

    fn start_byte(&self, address: u64) -> Option<u8> {
        match self.image.start_byte(address) {
            Some(byte) => Some(byte),
            None if self.is_in_a_stack(address) => Some(0),
            None => None,
        }
    }

    fn allows(&self, address: u64, size: u8, write: bool) -> bool {
        for k in 0..size {
            match address.checked_add(u64::from(k)) {
                Some(byte) if self.permits(byte, write) => {}
                _ => return false,
            }
        }
        true
    }
}
