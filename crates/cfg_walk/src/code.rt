use ev_graph::List;
use x64_syntax::Placed;

/// A block: the address of its first instruction, and how many instructions it has, at least one.
///
/// They stand one behind the other. With the last of them the block ends, or another begins behind it.
#[derive(Clone, Copy)]
pub struct Block {
    pub first: u64,
    pub count: u32,
}

/// The code of a program: its reached instructions, its blocks, its return sites and its functions, each by address.
#[derive(Drop)]
pub struct Code {
    pub placed: List<Placed>,
    pub blocks: List<Block>,
    pub sites: List<u64>,
    pub functions: List<u64>,
}
