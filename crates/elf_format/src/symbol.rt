ghost use Rattle.std.specs.Prelude.{◌≡◌, ◌<◌, ◌^◌, ◌++◌, length, OnOk};
ghost use Rattle.elf_format.specs.Fields.{spelled};
ghost use Rattle.elf_format.specs.Symbols.{symbol_fields, symbol_table, string_table};

use crate::field::{Field, push_fields};
use crate::padding::push_zeros;
use ev_graph::List;
use std::alloc::AllocError;

/// A global symbol of a function with an absolute value, its address (SHN_ABS); its name is any bytes
/// but zeros.
#[derive(Drop)]
pub struct Symbol {
    pub name: List<u8>,
    pub address: u64,
}

fn push_symbol(out: &mut Vec<u8>, name_at: u32, address: u64) -> Result<(), AllocError>
    ensures { OnOk result (out.new.items ≡ out.old.items ++ spelled (symbol_fields name_at address)) }
{
    push_fields(
        out,
        &[
            Field::Word(name_at),
            Field::Byte(0x12),
            Field::Byte(0),
            Field::Half(0xFFF1),
            Field::Xword(address),
            Field::Xword(0),
        ],
    )
}

/// Appends the symbol table of these symbols, 24 bytes each behind an empty one; their names stand one
/// after another in its string table.
pub fn push_symbol_table(out: &mut Vec<u8>, symbols: &[Symbol]) -> Result<(), AllocError>
    requires { length (string_table symbols.now) < 2 ^ 32 }
    ensures { OnOk result (out.new.items ≡ out.old.items ++ symbol_table symbols.now) }
{
    push_zeros(out, 24)?;
    let mut name_at: u32 = 1;
    for symbol in symbols {
        push_symbol(out, name_at, symbol.address)?;
        name_at = name_at + symbol.name.as_slice().len() as u32 + 1;
    }
    Ok(())
}

/// Appends the string table of these symbols: an empty name and theirs, each with a zero behind it.
pub fn push_string_table(out: &mut Vec<u8>, symbols: &[Symbol]) -> Result<(), AllocError>
    ensures { OnOk result (out.new.items ≡ out.old.items ++ string_table symbols.now) }
{
    out.push(0)?;
    for symbol in symbols {
        out.extend_from_slice(symbol.name.as_slice())?;
        out.push(0)?;
    }
    Ok(())
}
