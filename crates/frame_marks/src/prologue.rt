ghost use Rattle.std.specs.Prelude.{◌≡◌};
ghost use Rattle.frame_marks.specs.Lists.{AreOrdered, frame_from, prologue_of};

use crate::bodies::placed_at;
use crate::uses::{is_endbr, saves_pointer, sets_pointer};
use x64_syntax::Placed;

/// Where the two instructions stand that set a frame pointer up: `push rbp`, and behind it `mov
/// rbp, rsp`.
#[derive(Clone, Copy)]
pub(crate) struct Prologue {
    pub push: u64,
    pub set: u64,
}

/// The two instructions, where they stand from an address on.
fn frame_from(placed: &[Placed], address: u64) -> Option<Prologue>
    requires { AreOrdered placed.now }
    ensures { result ≡ frame_from placed.now address }
{
    let first = placed_at(placed, address)?;
    let set = first.address + u64::from(first.length);
    let second = placed_at(placed, set)?;
    if saves_pointer(&first.instr) && sets_pointer(&second.instr) {
        Some(Prologue { push: address, set })
    } else {
        None
    }
}

/// The two instructions, where a function begins with them, after an optional ENDBR64.
pub(crate) fn prologue_of(placed: &[Placed], function: u64) -> Option<Prologue>
    requires { AreOrdered placed.now }
    ensures { result ≡ prologue_of placed.now function }
{
    let first = placed_at(placed, function)?;
    if is_endbr(&first.instr) {
        frame_from(placed, first.address + u64::from(first.length))
    } else {
        frame_from(placed, function)
    }
}
