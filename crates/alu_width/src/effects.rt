ghost use Rattle.alu_width.specs.ByCl.{ShiftsByCl, TurnsByCl};

/// The law of shifts by CL in the table of effects: such a row leaves a flag undefined exactly where the row of
/// some number does. It computes nothing.
pub fn shift_effects_by_cl()
    ensures { ShiftsByCl }
{}

/// The law of rotates by CL in the table of effects: such a row leaves a flag undefined exactly where the row of
/// some number does. It computes nothing.
pub fn turn_effects_by_cl()
    ensures { TurnsByCl }
{}
