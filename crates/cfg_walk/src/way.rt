ghost use Rattle.std.specs.Prelude.{◌≡◌, ◌++◌, OnOk};
ghost use Rattle.cfg_walk.specs.Reach.{after};
ghost use Rattle.cfg_walk.specs.Blocks.{called, led, returned_to, where_plain};
ghost use Rattle.cfg_walk.specs.Ways.{way_of};

use ev_graph::NoMemory;
use x64_syntax::{Flow, Instr};

/// How control goes on after an instruction; a number is the address of a target.
///
/// `Falls` goes on behind the instruction alone. `Stops` is a return, a stop, or goes where no address is told.
#[derive(Clone, Copy)]
enum Way {
    Falls,
    Jumps(u64),
    Branches(u64),
    Calls(u64),
    Stops,
}

/// How control goes on after an instruction that ends at this address.
fn way_of(instr: &Instr, end: u64) -> Way
    ensures { result ≡ way_of instr.now end }
{
    match *instr {
        Instr::Jmp(displacement) => Way::Jumps(end.wrapping_add(displacement)),
        Instr::Jcc(_, displacement) => Way::Branches(end.wrapping_add(displacement)),
        Instr::Call(displacement) => Way::Calls(end.wrapping_add(displacement)),
        Instr::CallInd(_) | Instr::JmpInd(_) | Instr::Ret | Instr::Ud2 => Way::Stops,
        Instr::Alu(_, _, _, _, _)
        | Instr::Test(_, _, _)
        | Instr::Xchg(_, _, _, _)
        | Instr::Mov(_, _, _)
        | Instr::Lea(_, _, _)
        | Instr::MovZx(_, _, _, _)
        | Instr::MovSx(_, _, _, _)
        | Instr::MovSxd(_, _)
        | Instr::Push(_)
        | Instr::Pop(_)
        | Instr::Leave
        | Instr::SetCc(_, _)
        | Instr::CmovCc(_, _, _, _)
        | Instr::Inc(_, _, _)
        | Instr::Dec(_, _, _)
        | Instr::Not(_, _, _)
        | Instr::Neg(_, _)
        | Instr::Mul(_, _)
        | Instr::ImulOne(_, _)
        | Instr::Div(_, _)
        | Instr::Idiv(_, _)
        | Instr::ImulTwo(_, _, _)
        | Instr::ImulThree(_, _, _, _)
        | Instr::Shift(_, _, _, _)
        | Instr::Widen(_)
        | Instr::SignFill(_)
        | Instr::Cmpxchg(_, _, _, _)
        | Instr::Xadd(_, _, _, _)
        | Instr::Nop
        | Instr::Pause
        | Instr::Endbr
        | Instr::Mfence => Way::Falls,
    }
}

/// Puts an address behind what the list has, unless control goes on to a listed call or by a table.
fn push_plain(into: &mut Vec<u64>, flow: Flow, address: u64) -> Result<(), NoMemory>
    ensures { OnOk result (into.new.items ≡ into.old.items ++ where_plain flow address) }
{
    match flow {
        Flow::Plain => Ok(into.push(address)?),
        Flow::ListedIn | Flow::ListedOut | Flow::TableJump => Ok(()),
    }
}

/// Puts the addresses where blocks begin for the sake of an instruction behind what the list has.
#[tactic(auto, using(crate::proofs::Ways::led_is))]
pub(crate) fn push_led(
    into: &mut Vec<u64>,
    instr: &Instr,
    flow: Flow,
    end: u64,
) -> Result<(), NoMemory>
    ensures { OnOk result (into.new.items ≡ into.old.items ++ led instr.now flow end) }
{
    match way_of(instr, end) {
        Way::Falls | Way::Stops => Ok(()),
        Way::Jumps(target) => push_plain(into, flow, target),
        Way::Branches(target) => {
            into.push(target)?;
            Ok(into.push(end)?)
        }
        Way::Calls(target) => {
            push_plain(into, flow, target)?;
            Ok(into.push(end)?)
        }
    }
}

/// Puts the successors of an instruction that ends at this address behind what the list has.
#[tactic(auto, using(crate::proofs::Ways::after_is, crate::proofs::Ways::leads_on))]
pub(crate) fn push_after(
    into: &mut Vec<u64>,
    instr: &Instr,
    flow: Flow,
    end: u64,
) -> Result<(), NoMemory>
    ensures { OnOk result (into.new.items ≡ into.old.items ++ after instr.now flow end) }
{
    if let Way::Falls = way_of(instr, end) {
        Ok(into.push(end)?)
    } else {
        push_led(into, instr, flow, end)
    }
}

/// Puts the target of a call that is not listed behind what the list has.
#[tactic(auto, using(crate::proofs::Ways::called_is))]
pub(crate) fn push_called(
    into: &mut Vec<u64>,
    instr: &Instr,
    flow: Flow,
    end: u64,
) -> Result<(), NoMemory>
    ensures { OnOk result (into.new.items ≡ into.old.items ++ called instr.now flow end) }
{
    match way_of(instr, end) {
        Way::Calls(target) => push_plain(into, flow, target),
        Way::Falls | Way::Jumps(_) | Way::Branches(_) | Way::Stops => Ok(()),
    }
}

/// Puts the address behind a call that is not listed behind what the list has.
#[tactic(auto, using(crate::proofs::Ways::returned_is))]
pub(crate) fn push_returned_to(
    into: &mut Vec<u64>,
    instr: &Instr,
    flow: Flow,
    end: u64,
) -> Result<(), NoMemory>
    ensures { OnOk result (into.new.items ≡ into.old.items ++ returned_to instr.now flow end) }
{
    match way_of(instr, end) {
        Way::Calls(_) => push_plain(into, flow, end),
        Way::Falls | Way::Jumps(_) | Way::Branches(_) | Way::Stops => Ok(()),
    }
}
