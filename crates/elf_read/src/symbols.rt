ghost use Rattle.std.specs.Prelude.{◌≡◌, ◌≢◌, ◌<◌, ◌≤◌, ◌+◌, ◌*◌, ◌/◌, ◌↔◌, ℕ, List, true, false, not, ◌==◌, length, take, drop, take_while, IsTrue, IfSome, IfNone};
ghost use Rattle.elf_read.specs.ElfFile.{is_global, is_symbol, symbol_count, thread_name};
ghost use Rattle.elf_read.specs.FileFaults.{IsName, HasNameless, IsListedName, HasNoThread};
ghost use Rattle.elf_read.specs.Fields.{st_name, st_value};
ghost use Rattle.elf_read.specs.Listed.{name_of, IsListed};

use crate::bytes::{byte_at, half_at, is_same, range_at, word_at, xword_at};
use crate::listed::{Listed, as_listed};

/// The bytes of a symbol.
pub const SYMBOL_SIZE: usize = 24;

/// More bytes than any listed name has.
const WINDOW: u64 = 11;

/// How many symbols a symbol table has.
pub fn symbol_count(symbols: &[u8]) -> usize
    ensures value { result ≡ symbol_count symbols.now }
    ensures whole { 24 * result ≤ length symbols.now }
{
    symbols.len() / SYMBOL_SIZE
}

/// Whether the symbol at an offset of a symbol table is defined and GLOBAL.
fn is_global(symbols: &[u8], at: usize) -> bool
    requires { at + 24 ≤ length symbols.now }
    ensures { result ≡ is_global symbols.now at }
{
    half_at(symbols, at + 6) != 0 && byte_at(symbols, at + 4) / 16 == 1
}

/// Behind which offset of a string table no name begins: behind the last zero.
fn names_end(strings: &[u8]) -> usize
    ensures { (at : ℕ) → IsName strings.now at ↔ (at < result) }
{
    let mut end = 0;
    for (k, byte) in strings.iter().enumerate() {
        if *byte == 0 {
            end = k + 1;
        }
    }
    end
}

/// Whether the symbol at an offset is defined and GLOBAL, and its name would begin at `end` or behind.
fn is_nameless(symbols: &[u8], at: usize, end: usize) -> bool
    requires { at + 24 ≤ length symbols.now }
    ensures { IsTrue result ↔ (IsTrue (is_global symbols.now at) × (end ≤ st_name symbols.now at)) }
{
    is_global(symbols, at) && end <= word_at(symbols, at) as usize
}

/// Whether some defined GLOBAL symbol has no name.
pub fn has_nameless(symbols: &[u8], strings: &[u8]) -> bool
    ensures { IsTrue result ↔ HasNameless symbols.now strings.now }
{
    let end = names_end(strings);
    for i in 0..symbol_count(symbols) {
        if is_nameless(symbols, SYMBOL_SIZE * i, end) {
            return true;
        }
    }
    false
}

/// The name that begins at an offset, or its first bytes: as many as tell it from each listed name.
fn name_window(strings: &[u8], offset: u64) -> &[u8]
    ensures { result.now ≡ take_while (λ b. not (b == 0)) (take 11 (drop offset strings.now)) }
{
    let window = range_at(strings, offset, WINDOW);
    for (end, byte) in window.iter().enumerate() {
        if *byte == 0 {
            return &window[..end];
        }
    }
    window
}

/// The listed name of the symbol at an offset of a symbol table, if it has one.
pub fn listed_at(symbols: &[u8], strings: &[u8], at: usize) -> Option<Listed>
    requires { at + 24 ≤ length symbols.now }
    ensures none { IfNone result ((name : List ℕ) → IsListedName name → is_symbol name symbols.now strings.now at ≡ false) }
    ensures some { IfSome result (λ found. IsListed found × (is_symbol (name_of found) symbols.now strings.now at ≡ true)) }
{
    if !is_global(symbols, at) {
        return None;
    }
    as_listed(name_window(strings, u64::from(word_at(symbols, at))))
}
