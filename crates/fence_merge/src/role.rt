ghost use Rattle.std.specs.Prelude.{◌≡◌};
ghost use Rattle.fence_merge.specs.Roles.{role, boundary_unless};
ghost use Rattle.fence_place.specs.Marked.{IsSorted};

use fence_place::is_marked;
use limm_ir::{IrFence, IrStep};
use x64_syntax::{Marks, SlotKind};

/// What a step is to the plan of fences.
#[derive(Clone, Copy)]
pub enum Role {
    /// A slot that is not private: one gap ends before it, and the next begins behind it.
    Boundary(SlotKind),
    Fence(IrFence),
    /// Any other step, as a private access.
    Other,
}

fn boundary_unless(private: bool, kind: SlotKind) -> Role
    ensures { result ≡ boundary_unless private kind }
{
    if private {
        Role::Other
    } else {
        Role::Boundary(kind)
    }
}

pub fn role_of(step: &IrStep, private: &Marks) -> Role
    requires { IsSorted private.now.slots }
    ensures { result ≡ role private.now.slots step.now }
{
    match *step {
        IrStep::Load(_, _, _, place) => {
            boundary_unless(is_marked(private, place, SlotKind::Read), SlotKind::Read)
        }
        IrStep::Store(_, _, _, place) => {
            boundary_unless(is_marked(private, place, SlotKind::Write), SlotKind::Write)
        }
        IrStep::Rmw(_, _, _, _, _, _) | IrStep::Cas(_, _, _, _, _, _) => {
            Role::Boundary(SlotKind::Locked)
        }
        IrStep::Fence(fence) => Role::Fence(fence),
        IrStep::Const(_, _)
        | IrStep::GetReg(_, _)
        | IrStep::SetReg(_, _)
        | IrStep::GetFlag(_, _)
        | IrStep::SetFlag(_, _)
        | IrStep::Op(_, _, _, _)
        | IrStep::Select(_, _, _, _)
        | IrStep::Input
        | IrStep::Output
        | IrStep::TrapIf(_, _) => Role::Other,
    }
}
