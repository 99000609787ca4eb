ghost use Rattle.x64_table.specs.Laws.{RowsAreAllowed, RowsAreOpen, RowsMakeSlots, RowsRun, RowsRunOnly, RowsWant};
ghost use Rattle.x64_table.specs.Machine.{StepsAreOpen};

/// What an instruction does is decided by the values that it reads and takes in.
#[tactic(auto, using(crate::proofs::OpenLemmas::rows_open))]
pub fn rows_are_open()
    ensures { RowsAreOpen }
{}

/// Each time that a row goes on, it has made exactly the accesses that `slots_of` lists.
#[tactic(auto, using(crate::proofs::ShapeLemmas::rows_slots))]
pub fn rows_make_slots()
    ensures { RowsMakeSlots }
{}

/// Each item that a row makes, in runs that are cut too, is allowed by the permission, and its value fits.
#[tactic(auto, using(crate::proofs::AllowedLemmas::rows_allowed))]
pub fn rows_are_allowed()
    ensures { RowsAreAllowed }
{}

/// Each run of a row to its end is what `row` answers on the run's values.
#[tactic(auto, using(crate::proofs::ShapeLemmas::rows_run_holds))]
pub fn rows_run()
    ensures { RowsRun }
{}

/// What `row` answers as `Done` is a run of the row to its end, with the items in their order.
#[tactic(auto, using(crate::proofs::ShapeLemmas::rows_run_only_holds))]
pub fn rows_run_only()
    ensures { RowsRunOnly }
{}

/// `row` wants a read exactly where none is given and the row makes one that is allowed, and an input exactly where
/// none is given, the row takes one, and no read is wanted.
pub fn rows_want()
    ensures { RowsWant }
{}

/// What a thread's step does is decided by the values that it reads and takes in.
#[tactic(auto, using(crate::proofs::MachineLemmas::steps_open))]
pub fn steps_are_open()
    ensures { StepsAreOpen }
{}
