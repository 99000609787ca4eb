use crate::Access;

/// The read that an instruction makes and for which no value was given.
#[derive(Clone, Copy, Debug, PartialEq, Eq)]
pub struct Wanted {
    pub address: u64,
    pub size: u8,
    pub locked: bool,
}

/// What one instruction makes: at most one of each, and the read stands before the write.
///
/// `fence` says that it is a fence. The accesses carry the id of thread 0 and index 0.
#[derive(Clone, Copy, Debug, PartialEq, Eq)]
pub struct RowItems {
    pub input: Option<u64>,
    pub output: Option<u64>,
    pub read: Option<Access>,
    pub write: Option<Access>,
    pub fence: bool,
}
