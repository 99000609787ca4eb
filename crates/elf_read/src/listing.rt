ghost use Rattle.std.specs.Prelude.{◌≡◌, ◌≢◌, ◌<◌, ◌≤◌, ◌+◌, ◌*◌, ◌↔◌, ℕ, length, get_or, Option, Some, None, IsTrue, IfOk, OnOk, IfErr, MatchBool};
ghost use Rattle.elf_read.specs.ElfFile.{is_symbol, symbol_count, thread_name, threads_from};
ghost use Rattle.elf_read.specs.FileFaults.{IsNamed, HasNoThread, RepeatsName};
ghost use Rattle.elf_read.specs.Listed.{name_of, IsListed, listed_value, Lists};
ghost use Rattle.elf_read.specs.declared.listed.Listed.{Listed};
ghost use Rattle.elf_read.specs.declared.listed.Listed.TheVariants.{Thread};

use crate::bytes::xword_at;
use crate::listed::Listed;
use crate::symbols::{SYMBOL_SIZE, listed_at, symbol_count};
use std::alloc::{AllocError, Global};

/// Where the symbols with listed names are.
#[derive(Clone, Copy, PartialEq, Eq)]
pub struct Listing {
    pub input: Option<u64>,
    pub output: Option<u64>,
    pub threads: [Option<u64>; 16],
}

impl Listing {
    /// The listing without a symbol.
    fn new() -> Listing
        ensures { (name : Listed) → IsListed name → listed_value result name ≡ None }
    {
        Listing {
            input: None,
            output: None,
            threads: [None; 16],
        }
    }

    /// Where the symbol of a name is, if it is listed.
    fn get(&self, name: Listed) -> Option<u64>
        requires { IsListed name }
        ensures { result ≡ listed_value self.now name }
    {
        match name {
            Listed::Input => self.input,
            Listed::Output => self.output,
            Listed::Thread(number) => self.threads[number as usize],
        }
    }

    /// The listing with the symbol of one more name.
    fn with(mut self, name: Listed, address: u64) -> Listing
        requires { IsListed name }
        ensures here { listed_value result name ≡ Some address }
        ensures others { (other : Listed) → IsListed other → other ≢ name → listed_value result other ≡ listed_value self other }
    {
        match name {
            Listed::Input => self.input = Some(address),
            Listed::Output => self.output = Some(address),
            Listed::Thread(number) => self.threads[number as usize] = Some(address),
        }
        self
    }
}

/// Whether the symbol at an offset of a symbol table begins the first thread.
fn begins_first_thread(symbols: &[u8], strings: &[u8], at: usize) -> bool
    requires { at + 24 ≤ length symbols.now }
    ensures { result ≡ is_symbol (thread_name 0) symbols.now strings.now at }
{
    match listed_at(symbols, strings, at) {
        Some(name) => name.is_first_thread(),
        None => false,
    }
}

/// Whether some symbol begins the first thread.
pub fn has_thread(symbols: &[u8], strings: &[u8]) -> bool
    ensures { MatchBool result ((i : ℕ) × IsNamed symbols.now strings.now i (thread_name 0)) (HasNoThread symbols.now strings.now) }
{
    for i in 0..symbol_count(symbols) {
        if begins_first_thread(symbols, strings, SYMBOL_SIZE * i) {
            return true;
        }
    }
    false
}

/// Where the symbols with listed names are, or the first symbol whose listed name an earlier one has.
pub fn list(symbols: &[u8], strings: &[u8]) -> Result<Listing, usize>
    ensures listed { IfOk result (Lists symbols.now strings.now (symbol_count symbols.now)) }
    ensures once { OnOk result ((i : ℕ) → RepeatsName symbols.now strings.now i → ⊥) }
    ensures repeated { IfErr result (RepeatsName symbols.now strings.now) }
    ensures first { IfErr result (λ i. (j : ℕ) → j < i → RepeatsName symbols.now strings.now j → ⊥) }
{
    let mut listing = Listing::new();
    for i in 0..symbol_count(symbols) {
        let at = SYMBOL_SIZE * i;
        let Some(name) = listed_at(symbols, strings, at) else {
            continue;
        };
        if listing.get(name).is_some() {
            return Err(i);
        }
        listing = listing.with(name, xword_at(symbols, at + 8));
    }
    Ok(listing)
}

/// Where the threads begin that are listed, up to the first that is not.
pub fn threads(alloc: Global, listing: &Listing) -> Result<Vec<u64>, AllocError>
    ensures { IfOk result (λ threads. threads.items ≡ threads_from (λ k. listed_value listing.now (Thread k)) 0 16) }
{
    let mut threads = Vec::new(alloc);
    for number in 0..16 {
        let Some(address) = listing.threads[number] else {
            return Ok(threads);
        };
        threads.push(address)?;
    }
    Ok(threads)
}
