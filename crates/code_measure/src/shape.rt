ghost use Rattle.std.specs.Prelude.{◌≤◌, ◌*◌, ◌+◌, ◌^◌, IfOk, OnOk, length, vec_len};

use std::alloc::{AllocError, Global};

/// Code of 65,536 instructions at most, on which a search that is not linear shows it.
#[derive(Clone, Copy)]
pub enum Shape {
    /// A jump to the next instruction, again and again.
    Jumps,
    /// Calls of one function.
    Calls,
    /// Calls of the next instruction, so that each is in the body of all functions before it.
    Chain,
    /// Functions that share one tail of accesses to their frame.
    Tails,
    /// Instructions that do nothing.
    Nops,
    /// One more than the limit.
    TooMany,
}

impl Shape {
    pub const ALL: [Shape; 6] = [
        Shape::Jumps,
        Shape::Calls,
        Shape::Chain,
        Shape::Tails,
        Shape::Nops,
        Shape::TooMany,
    ];

    /// The shape's name.
    pub fn name(self) -> &'static str {
        match self {
            Shape::Jumps => "jumps",
            Shape::Calls => "calls",
            Shape::Chain => "chain",
            Shape::Tails => "tails",
            Shape::Nops => "nops",
            Shape::TooMany => "too_many",
        }
    }

    /// The bytes of the shape's code.
    pub fn code(self, alloc: Global) -> Result<Vec<u8>, AllocError>
        ensures { IfOk result (λ code. vec_len code ≤ 2 ^ 20) }
    {
        match self {
            Shape::Jumps => jumps(alloc),
            Shape::Calls => calls(alloc),
            Shape::Chain => chain(alloc),
            Shape::Tails => tails(alloc),
            Shape::Nops => nops(alloc, 65_535),
            Shape::TooMany => nops(alloc, 65_536),
        }
    }
}

/// 65,535 jumps to the next instruction, and RET.
fn jumps(alloc: Global) -> Result<Vec<u8>, AllocError>
    ensures { IfOk result (λ code. vec_len code ≤ 2 ^ 20) }
{
    let mut code = Vec::new(alloc);
    for _ in 0..65_535_u32 {
        code.extend_from_slice(&[0xEB, 0])?;
    }
    code.push(0xC3)?;
    Ok(code)
}

/// 65,534 calls of the function behind them, which is RET, and RET before it.
fn calls(alloc: Global) -> Result<Vec<u8>, AllocError>
    ensures { IfOk result (λ code. vec_len code ≤ 2 ^ 20) }
{
    let mut code = Vec::new(alloc);
    for k in 0..65_534_u32 {
        let distance: u32 = 5 * (65_533 - k) + 1;
        code.push(0xE8)?;
        code.extend_from_slice(&distance.to_le_bytes())?;
    }
    code.extend_from_slice(&[0xC3, 0xC3])?;
    Ok(code)
}

/// 65,535 calls of the next instruction, and RET.
fn chain(alloc: Global) -> Result<Vec<u8>, AllocError>
    ensures { IfOk result (λ code. vec_len code ≤ 2 ^ 20) }
{
    let mut code = Vec::new(alloc);
    for _ in 0..65_535_u32 {
        code.extend_from_slice(&[0xE8, 0, 0, 0, 0])?;
    }
    code.push(0xC3)?;
    Ok(code)
}

/// Calls of 8,000 functions, and RET. Each function sets its frame pointer up and jumps to one tail, which has 33,533
/// times `mov eax, [rbp-8]`, LEAVE and RET.
fn tails(alloc: Global) -> Result<Vec<u8>, AllocError>
    ensures { IfOk result (λ code. vec_len code ≤ 2 ^ 20) }
{
    let mut code = calls_of_functions(alloc)?;
    code.push(0xC3)?;
    push_functions(&mut code)?;
    for _ in 0..33_533_u32 {
        code.extend_from_slice(&[0x8B, 0x45, 0xF8])?;
    }
    code.extend_from_slice(&[0xC9, 0xC3])?;
    Ok(code)
}

/// 8,000 calls, of functions of nine bytes each that stand one byte behind them.
fn calls_of_functions(alloc: Global) -> Result<Vec<u8>, AllocError>
    ensures { IfOk result (λ code. vec_len code ≤ 40000) }
{
    let mut code = Vec::new(alloc);
    for k in 0..8_000_u32 {
        let distance: u32 = 39_996 + 4 * k;
        code.push(0xE8)?;
        code.extend_from_slice(&distance.to_le_bytes())?;
    }
    Ok(code)
}

/// 8,000 times `push rbp`, `mov rbp, rsp` and a jump to what stands behind them all.
fn push_functions(code: &mut Vec<u8>) -> Result<(), AllocError>
    requires { vec_len code.old ≤ 40001 }
    ensures { OnOk result (vec_len code.new ≤ 112001) }
{
    for k in 0..8_000_u32 {
        let distance: u32 = 9 * (7_999 - k);
        code.extend_from_slice(&[0x55, 0x48, 0x89, 0xE5, 0xE9])?;
        code.extend_from_slice(&distance.to_le_bytes())?;
    }
    Ok(())
}

/// So many instructions that do nothing, and RET.
fn nops(alloc: Global, count: usize) -> Result<Vec<u8>, AllocError>
    requires { count ≤ 65536 }
    ensures { IfOk result (λ code. vec_len code ≤ 2 ^ 20) }
{
    let mut code = Vec::new(alloc);
    code.resize(count, 0x90)?;
    code.push(0xC3)?;
    Ok(code)
}
