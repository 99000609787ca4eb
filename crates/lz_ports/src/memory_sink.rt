ghost use Rattle.std.specs.Prelude.{◌≡◌, []};
ghost use Rattle.lz_ports.specs.Calls.{IsSinkCounted};

use crate::calls::Call;
use crate::{Sink, SinkFault};
use std::alloc::Global;
use std::marker::Model;

/// A sink in memory, some of whose calls fail.
#[derive(Drop)]
pub struct MemSink {
    bytes: Vec<u8>,
    failing: Vec<u64>,
    calls: u64,
    faults: u64,
}

impl Model for MemSink {
    ghost use Rattle.std.specs.Prelude.{◌≤◌};
    ghost use Rattle.lz_ports.specs.Memories.{SinkState};

    ghost Value = { SinkState };

    ghost view = { λ sink. record { bytes = sink.bytes.items; failing = sink.failing.items; calls = sink.calls; faults = sink.faults } };

    ghost invariant = { λ sink. sink.faults ≤ sink.calls };
}

impl MemSink {
    /// A sink that has taken nothing, and of whose calls those with the listed numbers fail; calls
    /// count from 0.
    pub fn new(alloc: Global, failing: Vec<u64>) -> MemSink
        ensures { result ≡ record { bytes = []; failing = failing.items; calls = 0; faults = 0 } }
    {
        MemSink {
            bytes: Vec::new(alloc),
            failing,
            calls: 0,
            faults: 0,
        }
    }

    /// The bytes that it has taken.
    pub fn taken(&self) -> &[u8]
        ensures { result.now ≡ self.now.bytes }
    {
        &self.bytes
    }

    /// Counts a call, and a fault where it is listed.
    fn begin_call(&mut self) -> Call
        ensures { IsSinkCounted self.old self.new result }
    {
        if self.calls == u64::MAX {
            return Call::Spent;
        }
        let listed = self.failing.contains(&self.calls);
        self.calls += 1;
        if listed {
            self.faults += 1;
            Call::Listed
        } else {
            Call::Fine
        }
    }
}

impl Sink for MemSink {
    ghost use Rattle.std.specs.Prelude.{◌≡◌, Some, OnOk};
    ghost use Rattle.lz_ports.specs.Ports.{HasCause, Took, TookPart};
    ghost use Rattle.lz_ports.specs.Memories.{IsTakenInMemory};

    ghost taken = { λ sink. Some sink.bytes };

    ghost faults = { λ sink. sink.faults };

    fn write_all(&mut self, bytes: &[u8]) -> Result<(), SinkFault>
        ensures ok { OnOk result (Took bytes.now self.old.bytes self.new.bytes) }
        ensures failed { result ≡ Err SinkFault.Failed → TookPart bytes.now self.old.bytes self.new.bytes }
        ensures no_memory { result ≡ Err SinkFault.NoMemory → self.new.bytes ≡ self.old.bytes }
        ensures cause { HasCause SinkFault.Failed self.old.faults self.new.faults result }
        ensures exact { IsTakenInMemory self.old bytes.now self.new result }
    {
        match self.begin_call() {
            Call::Spent => Err(SinkFault::NoMemory),
            Call::Listed => match self.bytes.extend_from_slice(&bytes[..bytes.len() / 2]) {
                Ok(()) => Err(SinkFault::Failed),
                Err(_) => Err(SinkFault::NoMemory),
            },
            Call::Fine => match self.bytes.extend_from_slice(bytes) {
                Ok(()) => Ok(()),
                Err(_) => Err(SinkFault::NoMemory),
            },
        }
    }
}
