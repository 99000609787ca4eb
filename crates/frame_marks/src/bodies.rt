ghost use Rattle.std.specs.Prelude.{◌≡◌, ◌++◌, ◌<◌, ◌^◌, ◌+◌, IfSome, OnOk};
ghost use Rattle.cfg_walk.specs.Machine.{placed_at};
ghost use Rattle.cfg_walk.specs.Blocks.{where_plain};
ghost use Rattle.cfg_walk.specs.Reach.{end_of};
ghost use Rattle.frame_marks.specs.Bodies.{goes_on, on_from};
ghost use Rattle.frame_marks.specs.Lists.{AreOrdered};

use ev_graph::NoMemory;
use graph_reach::Graph;
use std::marker::Model;
use x64_syntax::{Flow, Instr, Placed};

/// The instruction at an address, of instructions in the order of their addresses.
pub(crate) fn placed_at(placed: &[Placed], address: u64) -> Option<Placed>
    requires { AreOrdered placed.now }
    ensures found { result ≡ placed_at placed.now address }
    ensures low { IfSome result (λ p. end_of p < 2 ^ 64) }
{
    match placed.binary_search_by_key(&address, |p| p.address) {
        Ok(place) => Some(placed[place]),
        Err(_) => None,
    }
}

/// Puts the target of a jump behind what the list has, unless the jump is to a listed function.
fn push_target(into: &mut Vec<u64>, flow: Flow, target: u64) -> Result<(), NoMemory>
    ensures { OnOk result (into.new.items ≡ into.old.items ++ where_plain flow target) }
{
    match flow {
        Flow::Plain => Ok(into.push(target)?),
        Flow::ListedIn | Flow::ListedOut | Flow::TableJump => Ok(()),
    }
}

/// Puts where a function goes on, after an instruction that ends at this address, behind what the
/// list has.
fn push_on(into: &mut Vec<u64>, instr: &Instr, flow: Flow, end: u64) -> Result<(), NoMemory>
    ensures { OnOk result (into.new.items ≡ into.old.items ++ on_from instr.now flow end) }
{
    match *instr {
        Instr::Jmp(displacement) => push_target(into, flow, end.wrapping_add(displacement)),
        Instr::Jcc(_, displacement) => {
            into.push(end.wrapping_add(displacement))?;
            Ok(into.push(end)?)
        }
        Instr::Ret | Instr::Ud2 | Instr::CallInd(_) | Instr::JmpInd(_) => Ok(()),
        Instr::Alu(_, _, _, _, _)
        | Instr::Test(_, _, _)
        | Instr::Xchg(_, _, _, _)
        | Instr::Mov(_, _, _)
        | Instr::Lea(_, _, _)
        | Instr::MovZx(_, _, _, _)
        | Instr::MovSx(_, _, _, _)
        | Instr::MovSxd(_, _)
        | Instr::Push(_)
        | Instr::Pop(_)
        | Instr::Leave
        | Instr::Call(_)
        | Instr::SetCc(_, _)
        | Instr::CmovCc(_, _, _, _)
        | Instr::Inc(_, _, _)
        | Instr::Dec(_, _, _)
        | Instr::Not(_, _, _)
        | Instr::Neg(_, _)
        | Instr::Mul(_, _)
        | Instr::ImulOne(_, _)
        | Instr::Div(_, _)
        | Instr::Idiv(_, _)
        | Instr::ImulTwo(_, _, _)
        | Instr::ImulThree(_, _, _, _)
        | Instr::Shift(_, _, _, _)
        | Instr::Widen(_)
        | Instr::SignFill(_)
        | Instr::Cmpxchg(_, _, _, _)
        | Instr::Xadd(_, _, _, _)
        | Instr::Nop
        | Instr::Pause
        | Instr::Endbr
        | Instr::Mfence => Ok(into.push(end)?),
    }
}

/// The graph of the functions' bodies: from the address of each instruction edges lead to where
/// its function goes on.
#[derive(Drop)]
pub(crate) struct Bodies<'a> {
    placed: &'a [Placed],
}

impl<'a> Model for Bodies<'a> {
    ghost use Rattle.std.specs.Prelude.{List as Sequence};
    ghost use Rattle.x64_syntax.specs.declared.placed.Placed.{Placed as Instruction};
    ghost use Rattle.frame_marks.specs.Lists.{AreOrdered};

    ghost Value = { Sequence Instruction };

    ghost view = { λ bodies. bodies.placed.now };

    ghost invariant = { λ bodies. AreOrdered bodies.placed.now };
}

impl<'a> Bodies<'a> {
    /// The graph over these instructions, in the order of their addresses.
    pub fn over(placed: &'a [Placed]) -> Bodies<'a>
        requires { AreOrdered placed.now }
        ensures { result ≡ placed.now }
    {
        Bodies { placed }
    }
}

impl<'a> Graph for Bodies<'a> {
    ghost use Rattle.frame_marks.specs.Lists.{goes_on_at, one_each};

    ghost weight_of = { one_each };

    ghost successors_of = { goes_on_at };

    fn weight(&self, _node: u64) -> u64 {
        1
    }

    fn successors(&self, node: u64, into: &mut Vec<u64>) -> Result<(), NoMemory> {
        match placed_at(self.placed, node) {
            Some(p) => push_on(into, &p.instr, p.flow, p.address + u64::from(p.length)),
            None => Ok(()),
        }
    }
}
