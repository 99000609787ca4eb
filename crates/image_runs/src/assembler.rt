use std::alloc::{AllocError, Global};

/// A place of code to which jumps and calls lead.
#[derive(Clone, Copy)]
pub struct Label {
    number: usize,
}

/// Four bytes that hold a distance to a label, from behind them.
#[derive(Clone, Copy)]
struct Distance {
    offset: usize,
    to: Label,
}

/// Code with labels.
#[derive(Drop)]
pub struct Assembler {
    code: Vec<u8>,
    places: Vec<u32>,
    distances: Vec<Distance>,
}

impl Assembler {
    /// No code.
    pub fn new(alloc: Global) -> Assembler {
        Assembler {
            code: Vec::new(alloc),
            places: Vec::new(alloc),
            distances: Vec::new(alloc),
        }
    }

    /// A label at an offset from the code's first byte.
    pub fn label_at(&mut self, offset: u32) -> Result<Label, AllocError> {
        let number = self.places.len();
        self.places.push(offset)?;
        Ok(Label { number })
    }

    /// A label that is placed later.
    pub fn label(&mut self) -> Result<Label, AllocError> {
        self.label_at(0)
    }

    /// Places a label behind the code so far.
    pub fn place(&mut self, label: Label) {
        let here = offset_of(self.code.len());
        if let Some(place) = self.places.get_mut(label.number) {
            *place = here;
        }
    }

    /// Appends bytes.
    pub fn push(&mut self, bytes: &[u8]) -> Result<(), AllocError> {
        self.code.extend_from_slice(bytes)
    }

    /// Appends a jump or a call with this opcode.
    pub fn branch(&mut self, opcode: &[u8], to: Label) -> Result<(), AllocError> {
        self.code.extend_from_slice(opcode)?;
        let offset = self.code.len();
        self.distances.push(Distance { offset, to })?;
        self.code.extend_from_slice(&[0; 4])
    }

    /// The code with its distances.
    pub fn finish(self) -> Vec<u8> {
        let Assembler {
            mut code,
            places,
            distances,
        } = self;
        for distance in distances.as_slice() {
            let place = places.get(distance.to.number).copied().unwrap_or(0);
            let behind = offset_of(distance.offset).wrapping_add(4);
            put(&mut code, distance.offset, place.wrapping_sub(behind));
        }
        code
    }
}

/// An offset in 32 bits, which are enough for code that is translated.
fn offset_of(offset: usize) -> u32 {
    u32::try_from(offset).unwrap_or(u32::MAX)
}

/// Puts a little-endian number at an offset.
fn put(code: &mut Vec<u8>, offset: usize, number: u32) {
    for (k, byte) in number.to_le_bytes().iter().enumerate() {
        if let Some(cell) = code.get_mut(offset.saturating_add(k)) {
            *cell = *byte;
        }
    }
}
