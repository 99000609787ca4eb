ghost use Rattle.std.specs.Prelude.{◌≡◌, ◌≢◌, ◌+◌, ◌<◌, length, Some, Err, IfOk, OnOk, OnErr};
ghost use Rattle.std.specs.Option.{option_copied};
ghost use Rattle.lz_ports.specs.Memories.{Named, file_at, with_file, place_of};
ghost use Rattle.lz_ports.specs.Calls.{IsCounted};

use crate::calls::Call;
use crate::{GetFault, PutFault, Shelf};
use std::alloc::{AllocError, Global};
use std::marker::Model;

/// A file and its name, for a shelf in memory.
#[derive(Drop)]
pub struct NamedFile {
    pub name: String,
    pub bytes: Vec<u8>,
}

impl Model for NamedFile {
    ghost use Rattle.std.specs.Prelude.{string_bytes};
    ghost use Rattle.lz_ports.specs.Memories.{Named};

    ghost Value = { Named };

    ghost view = { λ file. record { name = string_bytes file.name; bytes = file.bytes.items } };
}

/// The place of the file with this name.
fn place_of(files: &[NamedFile], name: &str) -> Option<usize>
    ensures { result ≡ place_of files.now name.now }
{
    for (place, file) in files.iter().enumerate() {
        if file.name.as_str() == name {
            return Some(place);
        }
    }
    None
}

/// A shelf in memory, some of whose calls fail.
#[derive(Drop)]
pub struct MemShelf {
    alloc: Global,
    files: Vec<NamedFile>,
    failing: Vec<u64>,
    calls: u64,
    get_faults: u64,
    put_faults: u64,
}

impl Model for MemShelf {
    ghost use Rattle.std.specs.Prelude.{◌≤◌, length};
    ghost use Rattle.lz_ports.specs.Memories.{ShelfState};

    ghost Value = { ShelfState };

    ghost view = { λ shelf. record { files = shelf.files.items; failing = shelf.failing.items; calls = shelf.calls; get_faults = shelf.get_faults; put_faults = shelf.put_faults } };

    ghost invariant = { λ shelf. (shelf.get_faults ≤ shelf.calls) × (shelf.put_faults ≤ shelf.calls) };
}

impl MemShelf {
    /// A shelf that holds these files, and of whose calls those with the listed numbers fail; calls
    /// count from 0.
    pub fn new(alloc: Global, files: Vec<NamedFile>, failing: Vec<u64>) -> MemShelf
        ensures { result ≡ record { files = files.items; failing = failing.items; calls = 0; get_faults = 0; put_faults = 0 } }
    {
        MemShelf {
            alloc,
            files,
            failing,
            calls: 0,
            get_faults: 0,
            put_faults: 0,
        }
    }

    /// The bytes under a name.
    pub fn look(&self, name: &str) -> Option<&[u8]>
        ensures { option_copied result ≡ file_at self.now.files name.now }
    {
        bytes_at(&self.files, name)
    }
}

/// The bytes of the file with this name.
fn bytes_at<'a>(files: &'a [NamedFile], name: &str) -> Option<&'a [u8]>
    ensures { option_copied result ≡ file_at files.now name.now }
{
    for file in files {
        if file.name.as_str() == name {
            return Some(&file.bytes);
        }
    }
    None
}

/// A file of this name with these bytes.
fn named_file(alloc: Global, name: &str, bytes: &[u8]) -> Result<NamedFile, AllocError>
    ensures { IfOk result (λ file. file ≡ record { name = name.now; bytes = bytes.now }) }
{
    let name = String::from_str(alloc, name)?;
    let bytes = Vec::from_slice(alloc, bytes)?;
    Ok(NamedFile { name, bytes })
}

/// The files after these bytes were put under a name.
fn store(
    alloc: Global,
    files: &mut Vec<NamedFile>,
    name: &str,
    bytes: &[u8],
) -> Result<(), AllocError>
    ensures ok { OnOk result (files.new.items ≡ with_file files.old.items name.now bytes.now) }
    ensures err { OnErr result (files.new.items ≡ files.old.items) }
{
    let file = named_file(alloc, name, bytes)?;
    match place_of(files, name) {
        Some(place) => files[place] = file,
        None => files.push(file)?,
    }
    Ok(())
}

impl MemShelf {
    /// Counts a call, and tells whether it is listed. It counts no fault.
    fn begin_call(&mut self) -> Call
        ensures counted { IsCounted self.old self.new result }
        ensures get_room { result ≢ Call.Spent → self.new.get_faults < self.new.calls }
        ensures put_room { result ≢ Call.Spent → self.new.put_faults < self.new.calls }
    {
        if self.calls == u64::MAX {
            return Call::Spent;
        }
        let listed = self.failing.contains(&self.calls);
        self.calls += 1;
        if listed {
            return Call::Listed;
        }
        Call::Fine
    }

    /// Puts these bytes under a name, and counts nothing.
    fn keep(&mut self, name: &str, bytes: &[u8]) -> Result<(), PutFault>
        ensures ok { OnOk result (self.new ≡ record self.old { files = with_file self.old.files name.now bytes.now }) }
        ensures err { OnErr result (self.new ≡ self.old) }
        ensures fault { result ≢ Err PutFault.Failed }
    {
        match store(self.alloc, &mut self.files, name, bytes) {
            Ok(()) => Ok(()),
            Err(_) => Err(PutFault::NoMemory),
        }
    }
}

impl Shelf for MemShelf {
    ghost use Rattle.std.specs.Prelude.{◌≡◌, ◌≤◌, ◌⊎◌, Some, length, IfOk, OnOk};
    ghost use Rattle.lz_ports.specs.Ports.{Rose, HasCause, IsPut, IsTorn, IsLonger};
    ghost use Rattle.lz_ports.specs.Memories.{file_at, get_answer, after_get, IsGot, IsPutInMemory};

    ghost files = { λ shelf. Some (file_at shelf.files) };

    ghost get_faults = { λ shelf. shelf.get_faults };

    ghost put_faults = { λ shelf. shelf.put_faults };

    fn get(&mut self, alloc: Global, name: &str, limit: u64) -> Result<Vec<u8>, GetFault>
        ensures bytes { IfOk result (λ v. file_at self.old.files name.now ≡ Some v.items) }
        ensures limit { IfOk result (λ v. length v.items ≤ limit) }
        ensures same { self.new.files ≡ self.old.files }
        ensures cause { HasCause GetFault.Failed self.old.get_faults self.new.get_faults result }
        ensures no_put { self.new.put_faults ≡ self.old.put_faults }
        ensures too_long { result ≡ Err GetFault.TooLong → IsLonger (file_at self.old.files) name.now limit × (Rose self.old.get_faults self.new.get_faults → ⊥) }
        ensures longer { IsLonger (file_at self.old.files) name.now limit → (Rose self.old.get_faults self.new.get_faults → ⊥)
            → (result ≡ Err GetFault.TooLong) ⊎ (result ≡ Err GetFault.NoMemory) }
        ensures answer { IsGot (λ v. v.items) (get_answer self.old name.now limit) result }
        ensures after { self.new ≡ after_get self.old name.now }
    {
        match self.begin_call() {
            Call::Spent => return Err(GetFault::NoMemory),
            Call::Listed => {
                self.get_faults += 1;
                return Err(GetFault::Failed);
            }
            Call::Fine => {}
        }
        let Some(bytes) = bytes_at(&self.files, name) else {
            self.get_faults += 1;
            return Err(GetFault::Failed);
        };
        if bytes.len() as u64 > limit {
            return Err(GetFault::TooLong);
        }
        Vec::from_slice(alloc, bytes).map_err(|_| GetFault::NoMemory)
    }

    fn put(&mut self, name: &str, bytes: &[u8]) -> Result<(), PutFault>
        ensures ok { OnOk result (IsPut name.now bytes.now (file_at self.old.files) (file_at self.new.files)) }
        ensures failed { result ≡ Err PutFault.Failed → IsTorn name.now bytes.now (file_at self.old.files) (file_at self.new.files) }
        ensures no_memory { result ≡ Err PutFault.NoMemory → self.new.files ≡ self.old.files }
        ensures cause { HasCause PutFault.Failed self.old.put_faults self.new.put_faults result }
        ensures no_get { self.new.get_faults ≡ self.old.get_faults }
        ensures exact { IsPutInMemory self.old name.now bytes.now self.new result }
    {
        match self.begin_call() {
            Call::Spent => Err(PutFault::NoMemory),
            Call::Listed => {
                self.put_faults += 1;
                self.keep(name, &bytes[..bytes.len() / 2])?;
                Err(PutFault::Failed)
            }
            Call::Fine => {
                self.keep(name, bytes)?;
                Ok(())
            }
        }
    }
}
