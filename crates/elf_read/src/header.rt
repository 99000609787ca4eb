ghost use Rattle.std.specs.Prelude.{◌≡◌, ◌≤◌, length, OnOk};
ghost use Rattle.elf_read.specs.FirstFault.{Looks};
ghost use Rattle.elf_read.specs.FileFaults.{Holds};

use crate::bytes::{half_at, is_same};
use crate::fault::FileFault;

/// The most bytes that a file may have.
const MOST_BYTES: usize = 67_108_864;

/// The bytes of a file's header.
pub const HEADER_SIZE: usize = 64;

/// Refuses a file that is too long, or too short for a header.
pub fn check_length(bytes: &[u8]) -> Result<(), FileFault>
    ensures first { Looks (Holds bytes.now) 1 3 result }
    ensures long { OnOk result (64 ≤ length bytes.now) }
{
    if bytes.len() > MOST_BYTES {
        return Err(FileFault::TooLong);
    }
    if bytes.len() < HEADER_SIZE {
        return Err(FileFault::Short);
    }
    Ok(())
}

/// Refuses a file whose first bytes do not say ELF, 64 bits, little-endian, version 1.
pub fn check_identification(bytes: &[u8]) -> Result<(), FileFault>
    requires { 64 ≤ length bytes.now }
    ensures { Looks (Holds bytes.now) 3 5 result }
{
    if !is_same(&bytes[..4], b"\x7FELF") {
        return Err(FileFault::Magic);
    }
    if bytes[4] != 2 || bytes[5] != 1 || bytes[6] != 1 {
        return Err(FileFault::Class);
    }
    Ok(())
}

/// Refuses a file that is no executable (ET_EXEC) for x86-64 (EM_X86_64).
pub fn check_target(bytes: &[u8]) -> Result<(), FileFault>
    requires { 64 ≤ length bytes.now }
    ensures { Looks (Holds bytes.now) 5 7 result }
{
    let kind = half_at(bytes, 16);
    if kind != 2 {
        return Err(FileFault::BadType(kind));
    }
    let machine = half_at(bytes, 18);
    if machine != 62 {
        return Err(FileFault::Machine(machine));
    }
    Ok(())
}
