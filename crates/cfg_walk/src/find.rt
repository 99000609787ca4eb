ghost use Rattle.std.specs.Prelude.{◌≡◌, ℕ, ◌<◌, ◌+◌, ◌^◌, ◌++◌, IfOk, OnOk, slice_get, Some, Option};
ghost use Rattle.elf_read.specs.Elf.{IsProgram, parts_of};
ghost use Rattle.elf_read.specs.FirstFault.{LooksFor, rank};
ghost use Rattle.code_at.specs.Code.{Program, program_of, IsBad, StandsAt};
ghost use Rattle.jump_table.specs.declared.entries.Table.{Table};
ghost use Rattle.jump_table.specs.Entries.{entries_from};
ghost use Rattle.jump_table.specs.Pattern.{IsTable, IsToldTable};
ghost use Rattle.cfg_walk.specs.Faults.{Holds, weight_with};
ghost use Rattle.cfg_walk.specs.Searching.{IsSearching, Tells, AreFound, lesser_of, address_of, told_entries};

use crate::way::push_after;
use code_at::instruction_at;
use elf_read::{BadCodeKind, CodeFault, Elf, FileFault, TransFault};
use ev_graph::NoMemory;
use graph_reach::Nodes;
use jump_table::{Table, table_at};
use std::alloc::Global;
use x64_syntax::Placed;

/// The most reached addresses and entries of tables.
const CODE_LIMIT: u64 = 65_536;

/// What a search for reached code has found so far: the addresses in the order of discovery, the instructions of those
/// that were looked at, in the same order, and the fault at the least address without one.
#[derive(Drop)]
struct Search {
    nodes: Nodes,
    placed: Vec<Placed>,
    bad: Option<CodeFault>,
}

/// Of two faults the one at the lesser address.
fn lesser_of(kept: Option<CodeFault>, fault: CodeFault) -> CodeFault
    ensures { result ≡ lesser_of kept fault }
{
    match kept {
        Some(kept) if kept.address <= fault.address => kept,
        _ => fault,
    }
}

/// What an address counts for: itself, and the entries of the table whose pattern begins there.
fn weight_with(table: &Option<Table>) -> u64
    ensures { result ≡ weight_with table.now }
{
    match table {
        Some(table) => 1 + u64::from(table.count),
        None => 1,
    }
}

/// Puts the entries of a table behind what the list has.
fn push_entries(into: &mut Vec<u64>, elf: &Elf, table: &Table) -> Result<(), NoMemory>
    requires program { IsProgram (parts_of elf.now) elf.now.threads }
    requires table { IsTable (program_of elf.now) table.now }
    ensures { OnOk result (into.new.items ≡ into.old.items ++ entries_from (parts_of elf.now) table.now.base table.now.count) }
{
    for k in 0..table.count {
        into.push(table.entry(elf, k))?;
    }
    Ok(())
}

/// Puts the entries of the table that begins at an address, if one does, behind what the list has.
fn push_told(
    into: &mut Vec<u64>,
    elf: &Elf,
    address: u64,
    table: &Option<Table>,
) -> Result<(), NoMemory>
    requires program { IsProgram (parts_of elf.now) elf.now.threads }
    requires told { IsToldTable (program_of elf.now) address table.now }
    ensures { OnOk result (into.new.items ≡ into.old.items ++ told_entries (program_of elf.now) table.now) }
{
    match table {
        Some(table) => push_entries(into, elf, table),
        None => Ok(()),
    }
}

impl Search {
    /// The search that has come to where the threads begin.
    fn new(alloc: Global, elf: &Elf) -> Result<Search, NoMemory>
        ensures { IfOk result (λ s. IsSearching (program_of elf.now) s.nodes 0 0 s.placed.items s.bad) }
    {
        let mut nodes = Nodes::new(alloc);
        nodes.add_all(elf.threads.as_slice())?;
        Ok(Search {
            nodes,
            placed: Vec::new(alloc),
            bad: None,
        })
    }

    /// Takes down the instruction at the node that the search has come to. The buffer has the entries of a table that
    /// begins there.
    fn note(&mut self, placed: Placed, buffer: &mut Vec<u64>) -> Result<(), NoMemory>
        requires { placed.address + placed.length < 2 ^ 64 }
        ensures { OnOk result ((program : Program) (table : Option Table) (place a : ℕ) → buffer.old.items ≡ told_entries program table
            → slice_get self.old.nodes place ≡ Some a → StandsAt program a placed → IsToldTable program a table
            → Tells program table self.old.nodes self.old.placed.items self.old.bad self.new.nodes self.new.placed.items self.new.bad place) }
    {
        let end = placed.address + u64::from(placed.length);
        push_after(buffer, &placed.instr, placed.flow, end)?;
        self.placed.push(placed)?;
        self.nodes.add_all(buffer.as_slice())?;
        Ok(())
    }

    /// Takes down that no instruction stands at the node that the search has come to.
    fn miss(&mut self, fault: CodeFault)
        ensures { (program : Program) (table : Option Table) (place : ℕ) → slice_get self.old.nodes place ≡ Some fault.address
            → IsBad program fault.address fault.kind → IsToldTable program fault.address table
            → Tells program table self.old.nodes self.old.placed.items self.old.bad self.new.nodes self.new.placed.items self.new.bad place }
    {
        self.bad = Some(lesser_of(self.bad, fault));
    }

    /// Looks at the node that the search has come to. The buffer's elements go, and its memory serves.
    fn look(
        &mut self,
        elf: &Elf,
        address: u64,
        table: &Option<Table>,
        buffer: &mut Vec<u64>,
    ) -> Result<(), NoMemory>
        requires program { IsProgram (parts_of elf.now) elf.now.threads }
        requires told { IsToldTable (program_of elf.now) address table.now }
        ensures { OnOk result ((place : ℕ) → slice_get self.old.nodes place ≡ Some address
            → Tells (program_of elf.now) table.now self.old.nodes self.old.placed.items self.old.bad self.new.nodes self.new.placed.items self.new.bad place) }
    {
        buffer.clear();
        push_told(buffer, elf, address, table)?;
        match instruction_at(elf, address) {
            Ok(placed) => {
                self.note(placed, buffer)?;
                Ok(())
            }
            Err(kind) => {
                self.miss(CodeFault { address, kind });
                Ok(())
            }
        }
    }
}

/// The instructions that are reached, in the order of discovery.
///
/// Refused for too much code after the limit's work, and else for the least reached address without an instruction.
pub fn find(alloc: Global, elf: &Elf) -> Result<Vec<Placed>, TransFault>
    requires { IsProgram (parts_of elf.now) elf.now.threads }
    ensures first { LooksFor (Holds (program_of elf.now)) (rank FileFault.TooMuchCode) (rank (FileFault.Indirect 0)) result }
    ensures found { IfOk result (λ placed. AreFound (program_of elf.now) placed.items) }
{
    let mut search = Search::new(alloc, elf)?;
    let mut buffer = Vec::new(alloc);
    let mut total = 0;
    let mut place = 0;
    while place < search.nodes.len() {
        let address = search.nodes.at(place);
        let table = table_at(elf, address);
        let weight = weight_with(&table);
        if CODE_LIMIT - total < weight {
            return Err(TransFault::File(FileFault::TooMuchCode));
        }
        search.look(elf, address, &table, &mut buffer)?;
        total += weight;
        place += 1;
    }
    let Search {
        nodes: _,
        placed,
        bad,
    } = search;
    match bad {
        Some(fault) => Err(TransFault::File(FileFault::BadCode(fault))),
        None => Ok(placed),
    }
}
