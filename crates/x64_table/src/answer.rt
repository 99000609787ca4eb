use crate::state::X64State;
use ev_graph::{End, RowItems, Wanted};

/// How an instruction leaves: in a next state; with an address that it has popped to return to; with the index of
/// a jump through a table; or at the thread's end. `Return` and `Indexed` have the address after the instruction.
#[derive(Clone, Copy, Debug, PartialEq, Eq)]
pub enum Next {
    State(X64State),
    Return(X64State, u64),
    Indexed(X64State, u64),
    End(End),
}

/// The answer of `row`: the value of a read or of an input is missing, or the row is done.
#[derive(Clone, Copy, Debug, PartialEq, Eq)]
pub enum XRow {
    WantsRead(Wanted),
    WantsInput,
    Done(RowItems, Next),
}
