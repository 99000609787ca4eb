ghost use Rattle.std.specs.Prelude.{◌≡◌, ◌≤◌, ◌⊎◌, ℕ, Option, length, IfOk, IfSome, OnOk};
ghost use Rattle.lz_ports.specs.Ports.{Files, Rose, HasCause, IsPut, IsTorn, IsLonger, Told};

use std::alloc::Global;

/// Why a file was not given.
#[derive(Clone, Copy, PartialEq, Eq)]
pub enum GetFault {
    /// The shelf's count of failed gets rose: the file is absent, or it could not be read.
    Failed,
    /// The file has more bytes than the limit.
    TooLong,
    NoMemory,
}

/// Why a file was not kept.
#[derive(Clone, Copy, PartialEq, Eq)]
pub enum PutFault {
    /// The shelf's count of failed puts rose: the file is as before or holds a prefix of the bytes.
    Failed,
    /// The files are as before.
    NoMemory,
}

/// Where files lie by name. It may tell what it holds; its counts of failed gets and of failed puts, each a
/// `u64`, never fall, and each rises in its own calls alone.
pub trait Shelf {
    ghost files: { Self → Option Files };

    ghost get_faults: { Self → ℕ };

    ghost put_faults: { Self → ℕ };

    /// The bytes of the file under a name, at most `limit`; the files stay as they are.
    ///
    /// The name is a path of the system for a shelf over its files, and any text else.
    fn get(&mut self, alloc: Global, name: &str, limit: u64) -> Result<Vec<u8>, GetFault>
        ensures bytes { IfOk result (λ v. IfSome (files self.old) (λ f. f name.now ≡ Some v.items)) }
        ensures limit { IfOk result (λ v. length v.items ≤ limit) }
        ensures same { files self.new ≡ files self.old }
        ensures cause { HasCause GetFault.Failed (get_faults self.old) (get_faults self.new) result }
        ensures no_put { put_faults self.new ≡ put_faults self.old }
        // Too long comes exactly where the count did not rise and the file has more bytes than the limit.
        ensures too_long { result ≡ Err GetFault.TooLong → IfSome (files self.old) (λ f. IsLonger f name.now limit × (Rose (get_faults self.old) (get_faults self.new) → ⊥)) }
        ensures longer { IfSome (files self.old) (λ f. IsLonger f name.now limit → (Rose (get_faults self.old) (get_faults self.new) → ⊥)
            → (result ≡ Err GetFault.TooLong) ⊎ (result ≡ Err GetFault.NoMemory)) };

    /// Keeps these bytes under a name, in place of those that were there; all other files stay.
    fn put(&mut self, name: &str, bytes: &[u8]) -> Result<(), PutFault>
        ensures ok { OnOk result (Told (files self.old) (files self.new) (IsPut name.now bytes.now)) }
        ensures failed { result ≡ Err PutFault.Failed → Told (files self.old) (files self.new) (IsTorn name.now bytes.now) }
        ensures no_memory { result ≡ Err PutFault.NoMemory → files self.new ≡ files self.old }
        ensures cause { HasCause PutFault.Failed (put_faults self.old) (put_faults self.new) result }
        ensures no_get { get_faults self.new ≡ get_faults self.old };
}
