ghost use Rattle.std.specs.Prelude.{◌≡◌, ◌≤◌, ◌<◌, ◌^◌};
ghost use Rattle.flag_use.specs.Onward.{addresses_in};
ghost use Rattle.flag_use.specs.Walk.{onward};
ghost use Rattle.cfg_walk.specs.Reach.{end_of};

use x64_syntax::{Flow, Instr, Placed};

/// Where a path goes on from an instruction: to one or two addresses, or from a return to every
/// return site.
#[derive(Clone, Copy)]
pub(crate) enum Onward {
    Nowhere,
    To(u64),
    Either(u64, u64),
    ToSites,
}

/// Where a path goes on from an instruction. From a call it goes to the target alone, unless the
/// call is listed.
pub(crate) fn goes_on(p: &Placed) -> Onward
    requires { end_of p.now < 2 ^ 64 }
    ensures { addresses_in result ≡ onward p.now }
{
    let end = p.address + u64::from(p.length);
    match p.instr {
        Instr::Call(displacement) => match p.flow {
            Flow::Plain => Onward::To(end.wrapping_add(displacement)),
            Flow::ListedIn | Flow::ListedOut | Flow::TableJump => Onward::To(end),
        },
        Instr::Jmp(displacement) => match p.flow {
            Flow::Plain => Onward::To(end.wrapping_add(displacement)),
            Flow::ListedIn | Flow::ListedOut => Onward::ToSites,
            Flow::TableJump => Onward::Nowhere,
        },
        Instr::Jcc(_, displacement) => Onward::Either(end.wrapping_add(displacement), end),
        Instr::Ret => Onward::ToSites,
        Instr::CallInd(_) | Instr::JmpInd(_) | Instr::Ud2 => Onward::Nowhere,
        Instr::Alu(_, _, _, _, _)
        | Instr::Test(_, _, _)
        | Instr::Xchg(_, _, _, _)
        | Instr::Mov(_, _, _)
        | Instr::Lea(_, _, _)
        | Instr::MovZx(_, _, _, _)
        | Instr::MovSx(_, _, _, _)
        | Instr::MovSxd(_, _)
        | Instr::Push(_)
        | Instr::Pop(_)
        | Instr::Leave
        | Instr::SetCc(_, _)
        | Instr::CmovCc(_, _, _, _)
        | Instr::Inc(_, _, _)
        | Instr::Dec(_, _, _)
        | Instr::Not(_, _, _)
        | Instr::Neg(_, _)
        | Instr::Mul(_, _)
        | Instr::ImulOne(_, _)
        | Instr::Div(_, _)
        | Instr::Idiv(_, _)
        | Instr::ImulTwo(_, _, _)
        | Instr::ImulThree(_, _, _, _)
        | Instr::Shift(_, _, _, _)
        | Instr::Widen(_)
        | Instr::SignFill(_)
        | Instr::Cmpxchg(_, _, _, _)
        | Instr::Xadd(_, _, _, _)
        | Instr::Nop
        | Instr::Pause
        | Instr::Endbr
        | Instr::Mfence => Onward::To(end),
    }
}
