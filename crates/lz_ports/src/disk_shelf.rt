ghost use Rattle.std.specs.Prelude.{◌≡◌, ◌≤◌, length, IfOk};

use crate::{GetFault, PutFault, Shelf};
use std::alloc::Global;
use std::fs;
use std::io::{Read, Write};
use std::rt::Files;

/// How many bytes are asked for at once.
const PIECE: usize = 65_536;

/// The files of the system. It tells nothing of their contents, and counts refused gets and refused puts.
#[derive(Drop)]
pub struct DiskShelf<'a, R: Files> {
    rt: &'a R,
    get_faults: u64,
    put_faults: u64,
}

impl<'a, R: Files> DiskShelf<'a, R> {
    /// The files that the runtime reaches.
    pub fn new(rt: &'a R) -> DiskShelf<'a, R>
        ensures { (result.get_faults ≡ 0) × (result.put_faults ≡ 0) }
    {
        DiskShelf {
            rt,
            get_faults: 0,
            put_faults: 0,
        }
    }
}

impl<'a, R: Files> Shelf for DiskShelf<'a, R> {
    ghost use Rattle.std.specs.Prelude.{None};

    ghost files = { λ shelf. None };

    ghost get_faults = { λ shelf. shelf.get_faults };

    ghost put_faults = { λ shelf. shelf.put_faults };

    fn get(&mut self, alloc: Global, name: &str, limit: u64) -> Result<Vec<u8>, GetFault> {
        let answer = read_file(self.rt, alloc, name, limit);
        if let Err(GetFault::Failed) = answer {
            self.get_faults = self.get_faults.saturating_add(1);
        }
        answer
    }

    fn put(&mut self, name: &str, bytes: &[u8]) -> Result<(), PutFault> {
        let answer = write_file(self.rt, name, bytes);
        if let Err(PutFault::Failed) = answer {
            self.put_faults = self.put_faults.saturating_add(1);
        }
        answer
    }
}

/// The bytes of a file, of which at most one more than the limit are read.
fn read_file<R: Files>(rt: &R, alloc: Global, name: &str, limit: u64) -> Result<Vec<u8>, GetFault>
    ensures { IfOk result (λ v. length v.items ≤ limit) }
{
    let mut file = fs::open(rt, name).map_err(|_| GetFault::Failed)?;
    let mut bytes = Vec::new(alloc);
    let mut piece = [0; PIECE];
    for _ in 0..u64::MAX {
        let left = limit - bytes.len() as u64;
        let most = left.saturating_add(1).min(PIECE as u64) as usize;
        let count = file.read(&mut piece[..most]).map_err(|_| GetFault::Failed)?;
        if count == 0 {
            return Ok(bytes);
        }
        if count as u64 > left {
            return Err(GetFault::TooLong);
        }
        bytes
            .extend_from_slice(&piece[..count])
            .map_err(|_| GetFault::NoMemory)?;
    }
    Err(GetFault::Failed)
}

/// Makes the file of these bytes.
fn write_file<R: Files>(rt: &R, name: &str, bytes: &[u8]) -> Result<(), PutFault> {
    let mut file = fs::create(rt, name).map_err(|_| PutFault::Failed)?;
    let mut rest = bytes;
    while !rest.is_empty() {
        let count = file.write(rest).map_err(|_| PutFault::Failed)?;
        if count == 0 {
            return Err(PutFault::Failed);
        }
        rest = &rest[count..];
    }
    Ok(())
}
