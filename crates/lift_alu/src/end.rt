ghost use Rattle.std.specs.Prelude.{◌≡◌, ℕ, ◌≤◌, ◌^◌};
ghost use Rattle.x64_syntax.specs.declared.instr.Instr.TheVariants as instructions;
ghost use Rattle.lift_alu.specs.Flags.{even_formula, condition_formula};
ghost use Rattle.lift_alu.specs.Formulas.{place};
ghost use Rattle.lift_alu.specs.Meant.{end_from, end_of};

use ev_graph::TrapKind;
use limm_ir::{IrEnd, Temp};
use x64_syntax::{Flow, Instr, Placed};

/// Which temporary holds the condition of an even code, where its own begin at `temps`.
fn even_place(code: u8, temps: u32) -> u32
    requires { temps ≤ 2 ^ 24 }
    ensures place { result ≡ place temps (even_formula code) }
    ensures few { result ≤ 2 ^ 25 }
{
    match code {
        0 | 2 | 4 | 8 => temps,
        6 | 12 => temps + 2,
        _ => temps + 4,
    }
}

/// Which temporary holds the condition of a code, where its own begin at `temps`.
#[tactic(auto, unfolding(crate::specs::Flags::condition_formula))]
fn condition_place(code: u8, temps: u32) -> u32
    requires { temps ≤ 2 ^ 24 }
    ensures { result ≡ place temps (condition_formula code) }
{
    if code % 2 == 1 {
        even_place(code - 1, temps) + 2
    } else {
        even_place(code, temps)
    }
}

/// How a block ends with a call: at its target, or behind a listed call.
fn call_end(by: u64, flow: Flow, behind: u64) -> IrEnd
    ensures { (temps : ℕ) → result ≡ end_from (instructions.Call by) flow behind temps }
{
    match flow {
        Flow::Plain => IrEnd::Goto(behind.wrapping_add(by)),
        Flow::ListedIn | Flow::ListedOut | Flow::TableJump => IrEnd::Goto(behind),
    }
}

/// How a block ends with a jump: at its target, or where a listed function returns to.
fn jump_end(by: u64, flow: Flow, behind: u64, temps: u32) -> IrEnd
    requires { temps ≤ 2 ^ 24 }
    ensures { result ≡ end_from (instructions.Jmp by) flow behind temps }
{
    match flow {
        Flow::Plain => IrEnd::Goto(behind.wrapping_add(by)),
        Flow::ListedIn | Flow::ListedOut => IrEnd::Return(Temp(temps + 1)),
        Flow::TableJump => IrEnd::Goto(behind),
    }
}

/// How a block ends whose last instruction this is, with temporaries from `temps` on.
pub fn instr_end(last: &Placed, temps: u32) -> IrEnd
    requires { temps ≤ 2 ^ 24 }
    ensures { result ≡ end_of last.now temps }
{
    let behind = last.address.wrapping_add(u64::from(last.length));
    match last.instr {
        Instr::Call(by) => call_end(by, last.flow, behind),
        Instr::Jmp(by) => jump_end(by, last.flow, behind, temps),
        Instr::Jcc(condition, by) => {
            let holds = Temp(condition_place(condition.code, temps));
            IrEnd::Branch(holds, behind.wrapping_add(by), behind)
        }
        Instr::Ret => IrEnd::Return(Temp(temps + 1)),
        Instr::Ud2 => IrEnd::Stop(TrapKind::Invalid),
        _ => IrEnd::Goto(behind),
    }
}
