ghost use Rattle.std.specs.Prelude.{◌≡◌, ◌++◌, OnOk};
ghost use Rattle.byteorder.specs.Endian.{little_bytes};
ghost use Rattle.elf_format.specs.Fields.{field_bytes, spelled};

use byteorder::{ByteOrder, LittleEndian};
use std::alloc::AllocError;

/// A field of a file's structures (System V gABI, chapter 4, data representation): a number in one,
/// two, four or eight bytes, the lowest first.
#[derive(Clone, Copy, PartialEq, Eq)]
pub enum Field {
    Byte(u8),
    Half(u16),
    Word(u32),
    Xword(u64),
}

fn half_bytes(n: u16) -> [u8; 2]
    ensures { result ≡ little_bytes 2 n }
{
    let mut bytes = [0; 2];
    LittleEndian::write_u16(&mut bytes, n);
    bytes
}

fn word_bytes(n: u32) -> [u8; 4]
    ensures { result ≡ little_bytes 4 n }
{
    let mut bytes = [0; 4];
    LittleEndian::write_u32(&mut bytes, n);
    bytes
}

fn xword_bytes(n: u64) -> [u8; 8]
    ensures { result ≡ little_bytes 8 n }
{
    let mut bytes = [0; 8];
    LittleEndian::write_u64(&mut bytes, n);
    bytes
}

fn push_field(out: &mut Vec<u8>, field: Field) -> Result<(), AllocError>
    ensures { OnOk result (out.new.items ≡ out.old.items ++ field_bytes field) }
{
    match field {
        Field::Byte(n) => out.extend_from_slice(&[n]),
        Field::Half(n) => out.extend_from_slice(&half_bytes(n)),
        Field::Word(n) => out.extend_from_slice(&word_bytes(n)),
        Field::Xword(n) => out.extend_from_slice(&xword_bytes(n)),
    }
}

/// Appends the fields, one after another.
pub fn push_fields(out: &mut Vec<u8>, fields: &[Field]) -> Result<(), AllocError>
    ensures { OnOk result (out.new.items ≡ out.old.items ++ spelled fields.now) }
{
    for field in fields {
        push_field(out, *field)?;
    }
    Ok(())
}
