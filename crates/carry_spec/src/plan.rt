use fence_plan::Gap;
use x64_syntax::{List, Slot};

/// The fence plan of the block whose first instruction is at `first`: its slots that are not private, in their order, and the
/// gaps into which they cut the block, from edge to edge, one more than there are slots.
#[derive(Drop)]
pub struct BlockPlan {
    pub first: u64,
    pub slots: List<Slot>,
    pub gaps: List<Gap>,
}
