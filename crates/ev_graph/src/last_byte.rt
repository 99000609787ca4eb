ghost use Rattle.std.specs.Prelude.{◌≡◌, ◌↔◌, ℕ, IfSome, IfNone, IsNone, None, length};
ghost use Rattle.std.specs.Option.{option_map};
ghost use Rattle.ev_graph.specs.Events.{access_at};
ghost use Rattle.ev_graph.specs.Start.{start_at};
ghost use Rattle.ev_graph.specs.WellFormed.{EachAccess, IsInMemory};
ghost use Rattle.ev_graph.specs.FinalByte.{GivesByte, IsLastBefore, IsFinalByte};
ghost use Rattle.ev_graph.specs.FinderMark.{IsMark};

use crate::finder::Finder;
use crate::giving::byte_given;
use crate::start::first_byte;
use crate::{EventId, Execution, StartMemory, ThreadRun};

/// The byte that the last entry of co to cover the address gives.
fn last_byte(threads: &[ThreadRun], co: &[EventId], address: u64) -> Option<u8>
    ensures { IsLastBefore threads.now co.now address (length co.now) result }
{
    let mut finder = Finder::new();
    let mut last = None;
    for id in co {
        last = byte_given(threads, *id, address, &mut finder).or(last);
    }
    last
}

/// The byte that an address holds at the end: that of the last write in co that covers it, and else
/// the byte of the start; None where there is neither, so in no segment and no stack.
pub fn final_byte<S: StartMemory>(x: &Execution, start: &S, address: u64) -> Option<u8>
    ensures byte { IsFinalByte (S.cells start.now) x.now address result }
    ensures nowhere { EachAccess (IsInMemory (start_at (S.cells start.now) x.now.stacks)) x.now.threads
        → IsNone result ↔ (start_at (S.cells start.now) x.now.stacks address ≡ None) }
{
    match last_byte(x.threads.as_slice(), x.co.as_slice(), address) {
        Some(byte) => Some(byte),
        None => first_byte(x.stacks.as_slice(), start, address),
    }
}
