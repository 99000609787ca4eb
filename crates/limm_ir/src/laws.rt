ghost use Rattle.limm_ir.specs.Blocks.{BlocksAreOpen};

/// What a block does is decided by the values that it reads and takes in.
#[tactic(auto, using(crate::proofs::OpenLemmas::blocks_open))]
pub fn blocks_are_open()
    ensures { BlocksAreOpen }
{}
