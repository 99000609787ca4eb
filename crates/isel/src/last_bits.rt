ghost use Rattle.std.specs.Prelude.{◌≡◌, ℕ, OnOk};
ghost use Rattle.limm_ir.specs.Conditions.{Known, Unset, IsExtended, learn};
ghost use Rattle.isel.specs.LastBits.{kept_bit, Remembers};

use ev_graph::NoMemory;
use indexmap::IndexMap;
use limm_ir::{IrStep, Temp};
use std::alloc::Global;

/// The last bits that extensions keep, by the temporaries that hold their numbers of bytes.
#[derive(Drop)]
pub(crate) struct LastBits {
    pub(crate) bits: IndexMap<u32, u8>,
}

impl LastBits {
    /// Nothing is known of any temporary.
    pub(crate) fn new(alloc: Global) -> LastBits
        ensures { Remembers (λ t. Unset) result.bits }
    {
        LastBits {
            bits: IndexMap::new(alloc),
        }
    }

    /// Notes what a step makes known.
    pub(crate) fn note(&mut self, step: IrStep) -> Result<(), NoMemory>
        ensures { OnOk result ((known : ℕ → Known) → Remembers known self.old.bits → Remembers (learn step known) self.new.bits) }
    {
        if let IrStep::Const(t, bytes) = step {
            if bytes == 1 || bytes == 2 || bytes == 4 {
                self.bits.insert(t.0, bytes as u8 * 8 - 1)?;
            }
        }
        Ok(())
    }

    /// The last bit that an extension by a temporary keeps, or 63 where none is kept.
    pub(crate) fn of(&self, t: Temp) -> u8
        ensures { result ≡ kept_bit self.now.bits t.0 }
    {
        self.bits.get(&t.0).copied().unwrap_or(63)
    }
}
