ghost use Rattle.std.specs.Prelude.{◌≡◌, ◌++◌, replicate, OnOk};
ghost use Rattle.elf_format.specs.Bytes.{padded};

use std::alloc::AllocError;

/// Appends zeros.
pub fn push_zeros(out: &mut Vec<u8>, count: usize) -> Result<(), AllocError>
    ensures { OnOk result (out.new.items ≡ out.old.items ++ replicate count 0) }
{
    for _ in 0..count {
        out.push(0)?;
    }
    Ok(())
}

/// Appends zeros up to this length; bytes that are longer stay as they are.
pub fn pad_to(out: &mut Vec<u8>, length: usize) -> Result<(), AllocError>
    ensures { OnOk result (out.new.items ≡ padded out.old.items length) }
{
    push_zeros(out, length.saturating_sub(out.len()))
}
