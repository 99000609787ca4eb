//! The program: it calls `lasagne::run` with the words of its command line and ends with the status as a number.
//! Nothing rests on it; `run` carries the contract.
//! Source: POSIX.1-2017, exit statuses.
#![tactic(auto)]

use lasagne::{Status, Word, run};
use lz_ports::{DiskShelf, StdSink};
use std::alloc::Global;
use std::env;
use std::io::{self, ErrorKind};
use std::process::ExitCode;
use std::rt::Env;

/// What the program ends with where the system does not give the words of the command line.
const NO_WORDS: u8 = 9;

/// The words behind the program's name.
fn words<R: Env + AllocGlobal>(rt: &R) -> io::Result<Vec<Word>> {
    let mut words = Vec::new(rt.alloc());
    for text in env::args(rt)?.skip(1) {
        words.push(Word::new(text))?;
    }
    Ok(words)
}

/// The number that stands for a status.
fn number_of(status: Status) -> u8 {
    match status {
        Status::Done => 0,
        Status::Refused => 1,
        Status::Usage => 2,
        Status::ReadFailed => 3,
        Status::WriteFailed => 4,
        Status::NoMemory => 5,
        Status::NotExplained => 6,
        Status::OutFailed => 7,
    }
}

fn main(rt: HostRuntime) -> ExitCode {
    let number = match words(&rt) {
        Ok(words) => {
            let mut shelf = DiskShelf::new(&rt);
            let mut out = StdSink::new(&rt);
            number_of(run(rt.alloc(), &words, &mut shelf, &mut out))
        }
        Err(error) if error.kind() == ErrorKind::OutOfMemory => number_of(Status::NoMemory),
        Err(_) => NO_WORDS,
    };
    ExitCode::from(number)
}
