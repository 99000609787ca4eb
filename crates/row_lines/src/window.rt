ghost use Rattle.std.specs.Prelude.{◌≡◌, ◌↔◌, ◌+◌, ◌≤◌, ℕ, IsTrue};
ghost use Rattle.row_lines.specs.Window.{window_cell};

use ev_graph::StartMemory;

/// The address of the first byte of the cases' memory.
const BASE: u64 = 0x2000_0000;

/// The 64 bytes of memory that a case has, from `BASE` on, all of which may be read and written.
#[derive(Clone, Copy, PartialEq, Eq)]
pub struct Window {
    pub bytes: [u8; 64],
}

impl Window {
    /// The little-endian number of `size` bytes at an address; bytes outside count as 0.
    pub fn read(&self, address: u64, size: u8) -> u64 {
        let mut value = 0;
        for k in (0..size).rev() {
            let place = address.wrapping_add(u64::from(k));
            value = value << 8 | u64::from(self.byte(place).unwrap_or(0));
        }
        value
    }

    /// Writes the low `size` bytes of a value at an address, as far as they are inside.
    pub fn write(&mut self, address: u64, size: u8, value: u64) {
        for (k, byte) in value.to_le_bytes().iter().enumerate() {
            if k < usize::from(size) {
                let place = address.wrapping_sub(BASE).wrapping_add(k as u64);
                if place < 64 {
                    self.bytes[place as usize] = *byte;
                }
            }
        }
    }

    /// The cell with this number, 0 to 7, of eight bytes.
    pub fn cell(&self, number: u64) -> u64 {
        self.read(BASE.wrapping_add(number.wrapping_mul(8)), 8)
    }

    /// Puts a value into the cell with this number, 0 to 7.
    pub fn set_cell(&mut self, number: u64, value: u64) {
        self.write(BASE.wrapping_add(number.wrapping_mul(8)), 8, value);
    }

    fn byte(&self, address: u64) -> Option<u8> {
        let place = address.wrapping_sub(BASE);
        if place < 64 {
            Some(self.bytes[place as usize])
        } else {
            None
        }
    }
}

/// What may be done in a window: reading, and writing where it is writable. The bytes that a case begins with are not told
/// here.
#[derive(Clone, Copy, PartialEq, Eq)]
pub struct Permission {
    pub writable: bool,
}

impl StartMemory for Permission {
    ghost cells = { λ permission n. window_cell permission.writable n };

    fn start_byte(&self, address: u64) -> Option<u8> {
        if is_inside(address, 1) { Some(0) } else { None }
    }

    #[tactic(auto, using(crate::proofs::WindowLemmas::allowed, crate::proofs::WindowLemmas::allowed_only))]
    fn allows(&self, address: u64, size: u8, write: bool) -> bool {
        size == 0 || ((self.writable || !write) && is_inside(address, size))
    }
}

fn is_inside(address: u64, size: u8) -> bool
    ensures { IsTrue result ↔ ((0x20000000 ≤ address) × (address + size ≤ 0x20000040)) }
{
    address >= BASE && address - BASE + u64::from(size) <= 64
}
