use crate::{Sink, SinkFault};
use std::io::{self, Write};

/// Standard output. It tells nothing of what it has taken, and counts each refusal.
#[derive(Drop)]
pub struct StdSink<'a, P: Print> {
    rt: &'a P,
    faults: u64,
}

impl<'a, P: Print> StdSink<'a, P> {
    ghost use Rattle.std.specs.Prelude.{◌≡◌};

    /// The standard output that the runtime prints to.
    pub fn new(rt: &'a P) -> StdSink<'a, P>
        ensures { result.faults ≡ 0 }
    {
        StdSink { rt, faults: 0 }
    }
}

impl<'a, P: Print> Sink for StdSink<'a, P> {
    ghost use Rattle.std.specs.Prelude.{None};

    ghost taken = { λ sink. None };

    ghost faults = { λ sink. sink.faults };

    fn write_all(&mut self, bytes: &[u8]) -> Result<(), SinkFault> {
        if write_pieces(self.rt, bytes).is_err() {
            self.faults = self.faults.saturating_add(1);
            return Err(SinkFault::Failed);
        }
        Ok(())
    }
}

/// Writes these bytes, piece by piece.
fn write_pieces<P: Print>(rt: &P, bytes: &[u8]) -> Result<(), SinkFault> {
    let mut out = io::writer(rt);
    let mut rest = bytes;
    while !rest.is_empty() {
        let count = out.write(rest).map_err(|_| SinkFault::Failed)?;
        if count == 0 {
            return Err(SinkFault::Failed);
        }
        rest = &rest[count..];
    }
    Ok(())
}
