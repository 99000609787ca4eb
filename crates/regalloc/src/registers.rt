ghost use Rattle.std.specs.Prelude.{◌≡◌, ◌<◌, nat_eq};
ghost use Rattle.indexmap.specs.IndexMap.{get};
ghost use Rattle.a64_block.specs.Registers.{home};
ghost use Rattle.regalloc.specs.Slots.{temporary, register_of, AreBelow};

use a64_code::XReg;
use indexmap::IndexMap;

/// The number of registers for temporaries.
pub const SLOTS: usize = 8;

/// The number that reads as 0; greater ones are temporaries.
pub const ZERO: u32 = 20;

/// The machine's register for a number that is no temporary.
fn home(number: u32) -> u8
    requires { number < 21 }
    ensures { result ≡ home number }
{
    match number {
        0..=15 => number as u8,
        16..=19 => number as u8 + 3,
        _ => 31,
    }
}

/// The machine's register for a slot.
fn temporary(slot: usize) -> u8
    requires { slot < 8 }
    ensures { result ≡ temporary slot }
{
    if slot < 2 {
        slot as u8 + 16
    } else {
        slot as u8 + 21
    }
}

/// The machine's register for a number, where temporaries have these slots.
pub fn register_of(slots: &IndexMap<u32, usize>, number: u32) -> XReg
    requires { AreBelow (get nat_eq slots.now) }
    ensures { result ≡ register_of (get nat_eq slots.now) number }
{
    let register = if number > ZERO {
        temporary(slots.get(&number).copied().unwrap_or(0))
    } else {
        home(number)
    };
    XReg { number: register }
}
