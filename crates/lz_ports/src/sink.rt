ghost use Rattle.std.specs.Prelude.{◌≡◌, ℕ, List, Option, OnOk};
ghost use Rattle.lz_ports.specs.Ports.{HasCause, Told, Took, TookPart};

/// Why a text was not taken.
#[derive(Clone, Copy, PartialEq, Eq)]
pub enum SinkFault {
    /// The sink's count of faults rose: a prefix of the bytes was taken.
    Failed,
    /// Nothing was taken.
    NoMemory,
}

/// Where text goes. It may tell what it has taken; its count of faults, a `u64`, never falls.
pub trait Sink {
    ghost taken: { Self → Option (List ℕ) };

    ghost faults: { Self → ℕ };

    /// Takes these bytes, behind those that it has taken.
    fn write_all(&mut self, bytes: &[u8]) -> Result<(), SinkFault>
        ensures ok { OnOk result (Told (taken self.old) (taken self.new) (Took bytes.now)) }
        ensures failed { result ≡ Err SinkFault.Failed → Told (taken self.old) (taken self.new) (TookPart bytes.now) }
        ensures no_memory { result ≡ Err SinkFault.NoMemory → taken self.new ≡ taken self.old }
        ensures cause { HasCause SinkFault.Failed (faults self.old) (faults self.new) result };
}
