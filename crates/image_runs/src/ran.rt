use crate::made::Made;
use alu_width::Flags;
use ev_graph::{End, TrapKind};

/// How a run stops: at the thread's end, or as no run should.
#[derive(Clone, Copy, Debug, PartialEq, Eq)]
pub enum Stop {
    Ended(End),
    /// No instruction or word is at the address.
    Astray,
    /// A value is wanted that no row wants here, or a table is.
    Wanting,
    /// It is too long for a run of these programs.
    TooLong,
}

/// A whole run: what it made, registers of x86 and flags (CF, ZF, SF, OF as 0 or 1) at the stop, and how many
/// instructions or words it took.
#[derive(Drop)]
pub struct Ran {
    pub made: Made,
    pub registers: [u64; 16],
    pub flags: [u64; 4],
    pub stop: Stop,
    pub steps: u32,
}

/// CF, ZF, SF and OF as numbers.
pub fn flag_numbers(flags: Flags) -> [u64; 4] {
    [
        u64::from(flags.cf),
        u64::from(flags.zf),
        u64::from(flags.sf),
        u64::from(flags.of),
    ]
}

/// What is not the same in two runs, if anything. Where an access is not allowed the instruction is not done, and
/// its registers and flags are free.
pub fn difference(wanted: &Ran, found: &Ran) -> Option<&'static str> {
    if wanted.made.events.as_slice() != found.made.events.as_slice() {
        return Some("accesses, inputs or outputs");
    }
    if wanted.stop != found.stop || !matches!(wanted.stop, Stop::Ended(_)) {
        return Some("ends");
    }
    if !same_cells(wanted, found) {
        return Some("memory");
    }
    if wanted.stop == Stop::Ended(End::Trap(TrapKind::BadAccess)) {
        return None;
    }
    if wanted.registers != found.registers {
        return Some("registers");
    }
    if wanted.flags != found.flags {
        return Some("flags");
    }
    None
}

/// Whether both runs leave the same cells.
fn same_cells(wanted: &Ran, found: &Ran) -> bool {
    match (&wanted.made.cells, &found.made.cells) {
        (Some(wanted), Some(found)) => wanted.as_slice() == found.as_slice(),
        (None, None) => true,
        _ => false,
    }
}
