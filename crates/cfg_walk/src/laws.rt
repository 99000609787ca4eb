ghost use Rattle.cfg_walk.specs.Machine.{ThreadsFindCode};
ghost use Rattle.cfg_walk.specs.Running.{BlocksHaveInstructions, CodeBeginsBlocks, NoWrongJump, RunsAreReached, ThreadsRunBlocks, ThreadsRunByBlocks};

/// The machine that runs the code of a program finds just the placed instructions and the return sites in it.
#[tactic(auto, using(crate::proofs::Found::threads_find))]
pub fn threads_find_code()
    ensures { ThreadsFindCode }
{}

/// Each block of a program's code has its instructions, and only one list of them.
pub fn blocks_have_instructions()
    ensures { BlocksHaveInstructions }
{}

/// A block of a program's code begins at each entry of a thread and at each return site.
#[tactic(auto, using(crate::proofs::Whole::code_begins))]
pub fn code_begins_blocks()
    ensures { CodeBeginsBlocks }
{}

/// A thread that comes to a block takes its instructions one behind the other, and arrives where a block begins.
pub fn threads_run_blocks()
    ensures { ThreadsRunBlocks }
{}

/// The runs of a thread that begins with a block are just the runs block by block, with the same items, end and count.
pub fn threads_run_by_blocks()
    ensures { ThreadsRunByBlocks }
{}

/// No run of a thread that begins with a block ends because it came to an address without an instruction.
pub fn no_wrong_jump()
    ensures { NoWrongJump }
{}

/// Each address at which such a run takes an instruction is reached.
pub fn runs_are_paths_of_reach()
    ensures { RunsAreReached }
{}
