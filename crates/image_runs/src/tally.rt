use crate::ran::{Ran, Stop, difference};
use ev_graph::End;
use std::io;

/// What was run, and how many runs differ.
#[derive(Clone, Copy, Default)]
pub struct Tally {
    pub programs: u64,
    pub runs: u64,
    pub halted: u64,
    pub instructions: u64,
    pub words: u64,
    pub events: u64,
    pub differences: u64,
}

impl Tally {
    /// Compares the run of a program with that of its image, and prints a line where they differ.
    pub fn compare<R: Print>(
        &mut self,
        rt: &R,
        name: &str,
        wanted: &Ran,
        found: &Ran,
    ) -> io::Result<()> {
        self.runs = self.runs.wrapping_add(1);
        self.halted = self
            .halted
            .wrapping_add(u64::from(wanted.stop == Stop::Ended(End::Halted)));
        self.instructions = self.instructions.wrapping_add(u64::from(wanted.steps));
        self.words = self.words.wrapping_add(u64::from(found.steps));
        self.events = self.events.wrapping_add(wanted.made.events.len() as u64);
        match difference(wanted, found) {
            Some(what) => self.tell(rt, name, what),
            None => Ok(()),
        }
    }

    /// Prints what differs.
    pub fn tell<R: Print>(&mut self, rt: &R, name: &str, what: &str) -> io::Result<()> {
        self.differences = self.differences.wrapping_add(1);
        println!(rt; "{name}: {what} differ")
    }

    /// Prints the counts.
    pub fn print<R: Print>(&self, rt: &R, name: &str) -> io::Result<()> {
        let Tally {
            programs,
            runs,
            halted,
            instructions,
            words,
            events,
            differences,
        } = *self;
        print!(rt; "{name}: {programs} programs, {runs} runs of which {halted} halt, ")?;
        print!(rt; "{instructions} instructions, {words} words, ")?;
        println!(rt; "{events} accesses, inputs and outputs, {differences} differences")
    }
}
