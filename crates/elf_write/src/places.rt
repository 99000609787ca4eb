ghost use Rattle.std.specs.Prelude.{◌≡◌, ◌+◌, ◌<◌, ◌^◌, IfOk};
ghost use Rattle.elf_format.specs.Bytes.{rounded_up};
ghost use Rattle.elf_write.specs.ImageFile.{offset_after, places_from};

use ev_graph::NoMemory;

/// Where what follows the parts of an image stands in its file.
#[derive(Clone, Copy, PartialEq, Eq)]
pub struct Places {
    pub symbols: u64,
    pub strings: u64,
    pub names: u64,
    pub sections: u64,
}

/// The names of an image's sections: the empty one, and those at 1, 9 and 17.
pub const SECTION_NAMES: &[u8; 27] = b"\0.symtab\0.strtab\0.shstrtab\0";

/// The sum, where it fits: no file is so long that it does not.
pub fn sum(a: u64, b: u64) -> Result<u64, NoMemory>
    ensures value { IfOk result (λ total. total ≡ a + b) }
    ensures fits { IfOk result (λ total. total < 2 ^ 64) }
{
    a.checked_add(b).ok_or(NoMemory)
}

/// The least offset that is not below `end` and equals `address` modulo 4,096.
pub fn offset_after(end: u64, address: u64) -> Result<u64, NoMemory>
    ensures { IfOk result (λ offset. offset ≡ offset_after end address) }
{
    sum(end, (address % 4096 + (4096 - end % 4096)) % 4096)
}

/// The least multiple of 8 that is not below `n`.
fn rounded_up_to_8(n: u64) -> Result<u64, NoMemory>
    ensures value { IfOk result (λ rounded. rounded ≡ rounded_up 8 n) }
    ensures fits { IfOk result (λ rounded. rounded < 2 ^ 64) }
{
    Ok(sum(n, 7)? / 8 * 8)
}

/// The places behind parts that end at `end`, for tables of these sizes.
pub fn places_behind(end: u64, symbols: usize, strings: usize) -> Result<Places, NoMemory>
    ensures value { IfOk result (λ found. found ≡ places_from end symbols strings) }
    ensures fits { IfOk result (λ found. found.sections < 2 ^ 64) }
{
    let symbols_at = rounded_up_to_8(end)?;
    let strings_at = sum(symbols_at, symbols as u64)?;
    let names_at = sum(strings_at, strings as u64)?;
    let sections_at = rounded_up_to_8(sum(names_at, SECTION_NAMES.len() as u64)?)?;
    Ok(Places {
        symbols: symbols_at,
        strings: strings_at,
        names: names_at,
        sections: sections_at,
    })
}
