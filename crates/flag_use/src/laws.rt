ghost use Rattle.flag_use.specs.Instructions.{ConditionsAreDecided};
ghost use Rattle.flag_use.specs.Runs.{RunsArePaths};

/// A condition is decided by the flags that it reads.
#[tactic(auto, using(crate::proofs::Conditions::conditions_decided))]
pub fn conditions_are_decided()
    ensures { ConditionsAreDecided }
{}

/// Where no instruction reads an undefined flag, the addresses that a run of a thread takes, one
/// after another, are a path, and no instruction on it reads a flag that this path leaves undefined.
pub fn runs_are_paths()
    ensures { RunsArePaths }
{}
