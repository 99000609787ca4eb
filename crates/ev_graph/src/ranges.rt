ghost use Rattle.std.specs.Prelude.{◌≡◌, ◌+◌, ◌-◌, ◌<◌, ◌≤◌, ◌↔◌, ◌/◌, ◌%◌, ◌^◌, ℕ, IsTrue, IfSome, IfNone};
ghost use Rattle.ev_graph.specs.Events.{event, Covers, Overlap};
ghost use Rattle.ev_graph.specs.WellFormed.{byte_of};
ghost use Rattle.ev_graph.specs.FinalByte.{Writes};

use crate::{Access, AccessKind};

/// Whether two accesses have a byte in common.
pub fn overlaps(a: &Access, b: &Access) -> bool
    ensures { IsTrue result ↔ Overlap (event a.now) (event b.now) }
{
    if a.address <= b.address {
        b.size != 0 && b.address - a.address < u64::from(a.size)
    } else {
        a.size != 0 && a.address - b.address < u64::from(b.size)
    }
}

/// Whether the byte at the address is one of the access's.
pub fn covers(a: &Access, address: u64) -> bool
    ensures { IsTrue result ↔ Covers (event a.now) address }
{
    a.address <= address && address - a.address < u64::from(a.size)
}

/// Byte k of a value, counted from the least; zero from byte 8 on.
pub fn byte_at(value: u64, k: u64) -> u8
    ensures { result ≡ byte_of value k }
{
    if k < 8 {
        ((value >> (8 * k)) % 256) as u8
    } else {
        0
    }
}

/// The byte that a write gives the address, where it covers it.
pub fn byte_written(a: &Access, address: u64) -> Option<u8>
    ensures some { IfSome result (λ byte. Writes a.now address byte) }
    ensures none { IfNone result ((byte : ℕ) → Writes a.now address byte → ⊥) }
{
    if a.kind == AccessKind::Write && covers(a, address) {
        Some(byte_at(a.value, address - a.address))
    } else {
        None
    }
}
