use ev_graph::{Access, AccessKind, RowItems, Wanted};
use std::alloc::{AllocError, Global};

/// Where a program's cells begin.
pub const CELLS_AT: u64 = 0x404000;

/// The values of inputs, in turn, and those of reads where they are chosen.
const VALUES: [u64; 6] = [
    0x8000_0000_0000_0001,
    0x7FFF_FFFF_FFFF_FFFF,
    0x0123_4567_89AB_CDEF,
    0,
    0xFFFF_FFFF_FFFF_FFFF,
    0x8080_8080_8080_8080,
];

/// An access as it is compared.
#[derive(Clone, Copy, Debug, PartialEq, Eq)]
pub struct Touch {
    pub kind: AccessKind,
    pub locked: bool,
    pub address: u64,
    pub size: u8,
    pub value: u64,
}

/// An access, an input or an output.
#[derive(Clone, Copy, Debug, PartialEq, Eq)]
pub enum Event {
    Access(Touch),
    Input(u64),
    Output(u64),
}

/// What a run has made, and the cells as they are then; without cells the values of reads are chosen, one after
/// another.
#[derive(Drop)]
pub struct Made {
    pub events: Vec<Event>,
    pub cells: Option<Vec<u8>>,
    pub inputs: usize,
}

impl Made {
    /// Nothing is made, and the cells, if any, are these.
    pub fn nothing(alloc: Global, cells: Option<&[u8]>) -> Result<Made, AllocError> {
        let cells = match cells {
            Some(bytes) => Some(Vec::from_slice(alloc, bytes)?),
            None => None,
        };
        Ok(Made {
            events: Vec::new(alloc),
            cells,
            inputs: 0,
        })
    }

    /// The value of the next read.
    pub fn read(&self, wanted: &Wanted) -> u64 {
        match &self.cells {
            Some(cells) => held(cells.as_slice(), wanted.address, wanted.size),
            None => low_bytes(chosen(self.events.len()), wanted.size),
        }
    }

    /// The value of the next input.
    pub fn input(&self) -> u64 {
        chosen(self.inputs)
    }

    /// Adds what an instruction or a word makes. A listed call writes first and then takes or gives a value; a listed
    /// jump reads last.
    pub fn add(&mut self, items: &RowItems) -> Result<(), AllocError> {
        match items.write {
            Some(write) => {
                self.add_read(items)?;
                self.add_write(&write)?;
                self.add_transfer(items)
            }
            None => {
                self.add_transfer(items)?;
                self.add_read(items)
            }
        }
    }

    fn add_read(&mut self, items: &RowItems) -> Result<(), AllocError> {
        if let Some(read) = items.read {
            self.events.push(Event::Access(compared(&read)))?;
        }
        Ok(())
    }

    fn add_write(&mut self, write: &Access) -> Result<(), AllocError> {
        self.events.push(Event::Access(compared(write)))?;
        if let Some(cells) = &mut self.cells {
            hold(cells, write);
        }
        Ok(())
    }

    fn add_transfer(&mut self, items: &RowItems) -> Result<(), AllocError> {
        if let Some(value) = items.input {
            self.events.push(Event::Input(value))?;
            self.inputs = self.inputs.saturating_add(1);
        }
        if let Some(value) = items.output {
            self.events.push(Event::Output(value))?;
        }
        Ok(())
    }
}

/// The access without what is not compared.
fn compared(access: &Access) -> Touch {
    Touch {
        kind: access.kind,
        locked: access.locked,
        address: access.address,
        size: access.size,
        value: access.value,
    }
}

/// The chosen value with this number.
pub fn chosen(number: usize) -> u64 {
    VALUES[number % VALUES.len()]
}

/// The low bytes of a value, as a number.
fn low_bytes(value: u64, size: u8) -> u64 {
    match size {
        1 => value & 0xFF,
        2 => value & 0xFFFF,
        4 => value & 0xFFFF_FFFF,
        _ => value,
    }
}

/// The little-endian number of so many bytes; bytes outside count as 0.
fn held(cells: &[u8], address: u64, size: u8) -> u64 {
    let mut value = 0;
    for k in (0..size).rev() {
        let place = address.wrapping_sub(CELLS_AT).wrapping_add(u64::from(k)) as usize;
        value = value << 8 | u64::from(cells.get(place).copied().unwrap_or(0));
    }
    value
}

/// Puts the bytes of a write into the cells, as far as they are inside.
fn hold(cells: &mut Vec<u8>, write: &Access) {
    for (k, byte) in write.value.to_le_bytes().iter().enumerate() {
        if k < usize::from(write.size) {
            let place = write.address.wrapping_sub(CELLS_AT).wrapping_add(k as u64) as usize;
            if let Some(cell) = cells.get_mut(place) {
                *cell = *byte;
            }
        }
    }
}
