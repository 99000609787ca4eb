ghost use Rattle.std.specs.Prelude.{◌≡◌};
ghost use Rattle.a64_code.specs.Ranges.{IsEncodable};
ghost use Rattle.a64_code.specs.declared.instr.A64.TheVariants as words;
ghost use Rattle.a64_block.specs.Breaks.{break_of};

use ev_graph::TrapKind;

/// The number of the break that is a trap of a kind, 1 to 4.
///
/// An access that is not allowed traps by its own word; its number here is that of a jump that leads nowhere.
/// Source: the row of `Brk` in `a64_table`.
pub fn break_of(kind: TrapKind) -> u16
    ensures number { result ≡ break_of kind }
    ensures range { IsEncodable (words.Brk result) }
{
    match kind {
        TrapKind::Divide => 1,
        TrapKind::Invalid => 2,
        TrapKind::BadReturn => 3,
        TrapKind::BadJump | TrapKind::BadAccess => 4,
    }
}
