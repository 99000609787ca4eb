ghost use Rattle.std.specs.Prelude.{◌≡◌, ◌↔◌, ℕ, Option, IsTrue};
ghost use Rattle.std.specs.Option.{option_map};
ghost use Rattle.ev_graph.specs.Memory.{Cell, Allows};

/// The bytes that a file's segments hold at the start, and what may be done with them.
///
/// It speaks of segments alone; stacks are added by those who have them.
pub trait StartMemory {
    ghost cells: { Self → ℕ → Option Cell };

    /// The byte at an address, where a segment has one.
    fn start_byte(&self, address: u64) -> Option<u8>
        ensures { result ≡ option_map (λ (cell : Cell). cell.byte) (cells self.now address) };

    /// Whether each of `size` bytes from `address` on may be read, or written where `write` is true.
    fn allows(&self, address: u64, size: u8, write: bool) -> bool
        ensures { IsTrue result ↔ Allows (cells self.now) write address size };
}
