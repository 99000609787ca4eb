use ev_graph::List;

/// A segment of an image: `size` bytes of memory from `address` on, first `bytes` and then zeros.
///
/// The flags are those of a program header: W 2 and R 4.
#[derive(Drop)]
pub struct ImageSegment {
    pub address: u64,
    pub size: u64,
    pub flags: u32,
    pub bytes: List<u8>,
}

/// An AArch64 program: its segments, the words of its code, which stands at `code_address` and may only
/// be executed, and where each thread begins.
#[derive(Drop)]
pub struct Image {
    pub segments: List<ImageSegment>,
    pub code_address: u64,
    pub words: List<u32>,
    pub threads: List<u64>,
}
