/// What is counted of a program: threads, reached instructions, blocks, accesses, private accesses, and the
/// gaps between accesses that hold each kind of fence.
#[derive(Clone, Copy, PartialEq, Eq)]
pub struct Summary {
    pub threads: u32,
    pub instructions: u32,
    pub blocks: u32,
    pub accesses: u32,
    pub private: u32,
    pub frm: u32,
    pub fww: u32,
    pub fsc: u32,
}
