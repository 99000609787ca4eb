ghost use Rattle.std.specs.Prelude.{◌≡◌};
ghost use Rattle.fence_plan.specs.Gaps.{gap};

use x64_syntax::SlotKind;

/// The fences that a gap between accesses holds.
#[derive(Clone, Copy, PartialEq, Eq)]
pub struct Gap {
    pub frm: bool,
    pub fww: bool,
    pub fsc: bool,
}

/// The fences of a gap, by the slots at its ends and whether a full fence stands in it.
pub fn gap_between(before: Option<SlotKind>, fenced: bool, after: Option<SlotKind>) -> Gap
    ensures { result ≡ gap before fenced after }
{
    let locked = before == Some(SlotKind::Locked) || after == Some(SlotKind::Locked);
    if fenced || locked {
        Gap {
            frm: false,
            fww: false,
            fsc: true,
        }
    } else {
        Gap {
            frm: before == Some(SlotKind::Read),
            fww: after == Some(SlotKind::Write),
            fsc: false,
        }
    }
}
