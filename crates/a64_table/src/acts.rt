//! The forms of what words do, each from a state.

ghost use Rattle.std.specs.Prelude.{◌≡◌, ℕ, ◌+◌, ◌*◌, ◌%◌, ◌^◌, ◌<◌, Option, Some, None, pos, true};
ghost use Rattle.std.specs.Option.{option_map};
ghost use Rattle.ev_graph.specs.Memory.{allows};
ghost use Rattle.ev_graph.specs.declared.events.Item.TheVariants as items;
ghost use Rattle.behavior.specs.Acts.{access, reads, writes, exchanges, fences_at, takes_in, puts_out};
ghost use Rattle.a64_code.specs.Ranges.{bits, IsOperand, IsSize, IsEncodable};
ghost use Rattle.a64_table.specs.State.{xregs, value, held};
ghost use Rattle.a64_table.specs.Rows.{gets, jumps, branches, compares, breaks, calls, swapped, cleared, a64_written, a64_result};
ghost use Rattle.a64_table.specs.Answers.{next_state, no_items, shown, row_done};

use crate::rows::{ANext, ARow, FenceChoice};
use crate::state::{A64State, Done, Nzcv};
use crate::values::{bits, difference_flags};
use crate::words;
use a64_code::{A64, XReg};
use ev_graph::{
    Access, AccessKind, End, EventId, FenceKind, RowItems, StartMemory, TrapKind, Wanted,
};

const NO_ITEMS: RowItems = RowItems {
    input: None,
    output: None,
    read: None,
    write: None,
    fence: false,
};

/// The word goes on to the next one, with a value for the register that it sets, if it sets one.
pub(crate) fn gets(state: &A64State, set: Option<XReg>, value: u64) -> ARow
    ensures { result ≡ shown set state.now (gets value (held state.now).nzcv) None None }
{
    made(state, set, value, NO_ITEMS, FenceChoice::None)
}

/// The word makes these items and this fence, and goes on to the next one as in `gets`.
fn made(
    state: &A64State,
    set: Option<XReg>,
    value: u64,
    items: RowItems,
    fence: FenceChoice,
) -> ARow
    ensures { result ≡ row_done items fence set (record { distance = pos 1; value = value; nzcv = (held state.now).nzcv }) state.now }
{
    let done = Done {
        distance: 1,
        value,
        nzcv: state.nzcv(),
    };
    ARow::Done(items, fence, ANext::State(state.next(set, done)))
}

/// The thread ends.
fn ended(end: End) -> ARow
    ensures { result ≡ ARow.Done no_items FenceChoice.None (ANext.End end) }
{
    ARow::Done(NO_ITEMS, FenceChoice::None, ANext::End(end))
}

/// The word goes so many words on where it is taken, and else to the next one.
pub(crate) fn branch(state: &A64State, taken: bool, distance: i32) -> ARow
    ensures { result ≡ shown None state.now (branches taken distance (held state.now).nzcv) None None }
{
    let done = Done {
        distance: if taken { distance } else { 1 },
        value: 0,
        nzcv: state.nzcv(),
    };
    let next = ANext::State(state.next(None, done));
    ARow::Done(NO_ITEMS, FenceChoice::None, next)
}

/// The word sets a register and the flags to those of a difference.
pub(crate) fn compare(state: &A64State, set: XReg, x: bool, a: u64, b: u64) -> ARow
    requires a_fits { a < 2 ^ bits x }
    requires b_fits { b < 2 ^ bits x }
    ensures { result ≡ shown (Some set) state.now (compares x a b) None None }
{
    let done = Done {
        distance: 1,
        value: words::difference(bits(x), a, b),
        nzcv: difference_flags(bits(x), a, b),
    };
    let next = ANext::State(state.next(Some(set), done));
    ARow::Done(NO_ITEMS, FenceChoice::None, next)
}

/// The address at an offset from a register, in units of the size.
pub(crate) fn offset(state: &A64State, n: XReg, number: u16, size: u8) -> u64
    requires { IsOperand n }
    ensures { result ≡ (value xregs (held state.now) n + number * size) % 2 ^ 64 }
{
    let distance = u64::from(number) * u64::from(size);
    state.value(n).wrapping_add(distance)
}

/// Whether an access is allowed.
fn may<S: StartMemory>(memory: &S, write: bool, address: u64, size: u8) -> bool
    ensures { result ≡ allows (S.cells memory.now) write address size }
{
    memory.allows(address, size, write)
}

fn access(kind: AccessKind, locked: bool, place: u64, address: u64, size: u8, value: u64) -> Access
    ensures { access kind locked place address size value ≡ items.Access result }
{
    Access {
        id: EventId {
            thread: 0,
            index: 0,
        },
        kind,
        locked,
        address,
        size,
        value,
        place,
    }
}

/// The low bytes of a value.
pub(crate) fn low_bytes(size: u8, value: u64) -> u64
    requires { IsSize size }
    ensures { result ≡ value % 256 ^ size }
{
    match size {
        1 => value % 0x100,
        2 => value % 0x1_0000,
        4 => value % 0x1_0000_0000,
        _ => value,
    }
}

/// A load.
pub(crate) fn load<S: StartMemory>(
    state: &A64State,
    memory: &S,
    set: XReg,
    address: u64,
    size: u8,
    read: Option<u64>,
) -> ARow
    ensures { (input : Option ℕ) → result ≡ shown (Some set) state.now (reads (allows (S.cells memory.now)) state.now.at address size (λ v. gets v (held state.now).nzcv)) read input }
{
    if !may(memory, false, address, size) {
        return ended(End::Trap(TrapKind::BadAccess));
    }
    let Some(value) = read else {
        return ARow::WantsRead(Wanted {
            address,
            size,
            locked: false,
        });
    };
    let read = access(AccessKind::Read, false, state.at, address, size, value);
    let items = RowItems {
        read: Some(read),
        ..NO_ITEMS
    };
    made(state, Some(set), value, items, FenceChoice::None)
}

/// A store of the low bytes of a value.
pub(crate) fn store<S: StartMemory>(
    state: &A64State,
    memory: &S,
    address: u64,
    size: u8,
    value: u64,
) -> ARow
    requires { IsSize size }
    ensures { (read input : Option ℕ) → result ≡ shown None state.now (writes (allows (S.cells memory.now)) state.now.at address size value (gets 0 (held state.now).nzcv)) read input }
{
    if !may(memory, true, address, size) {
        return ended(End::Trap(TrapKind::BadAccess));
    }
    let value = low_bytes(size, value);
    let write = access(AccessKind::Write, false, state.at, address, size, value);
    let items = RowItems {
        write: Some(write),
        ..NO_ITEMS
    };
    made(state, None, 0, items, FenceChoice::None)
}

/// A locked read of what register n points to and, where there is a new value, the locked write.
pub(crate) fn exchange<S: StartMemory>(
    instr: A64<XReg>,
    state: &A64State,
    memory: &S,
    set: XReg,
    n: XReg,
    size: u8,
    read: Option<u64>,
) -> ARow
    requires instr { IsEncodable instr }
    requires base { IsOperand n }
    requires size { IsSize size }
    ensures { (input : Option ℕ) → result ≡ shown (Some set) state.now (exchanges (allows (S.cells memory.now)) state.now.at (value xregs (held state.now) n) size (a64_written instr (value xregs (held state.now))) (λ old. gets old (held state.now).nzcv)) read input }
{
    let address = state.value(n);
    if !(may(memory, false, address, size) && may(memory, true, address, size)) {
        return ended(End::Trap(TrapKind::BadAccess));
    }
    let Some(old) = read else {
        return ARow::WantsRead(Wanted {
            address,
            size,
            locked: true,
        });
    };
    let read = access(AccessKind::Read, true, state.at, address, size, old);
    let items = RowItems {
        read: Some(read),
        write: locked_write(instr, state, address, size, old),
        ..NO_ITEMS
    };
    made(state, Some(set), old, items, FenceChoice::None)
}

/// The locked write of an atomic word, where it writes.
fn locked_write(
    instr: A64<XReg>,
    state: &A64State,
    address: u64,
    size: u8,
    old: u64,
) -> Option<Access>
    requires instr { IsEncodable instr }
    requires size { IsSize size }
    ensures { option_map items.Access result ≡ option_map (λ v. access AccessKind.Write true state.now.at address size (v % 256 ^ size)) (a64_written instr (value xregs (held state.now)) old) }
{
    match written(instr, state, old) {
        Some(new) => {
            let value = low_bytes(size, new);
            Some(access(AccessKind::Write, true, state.at, address, size, value))
        }
        None => None,
    }
}

/// What an atomic word writes for an old value, in 64 bits.
#[tactic(auto, using(crate::proofs::ArithmeticLemmas::xor_fits, crate::proofs::ArithmeticLemmas::or_fits))]
fn written(instr: A64<XReg>, state: &A64State, old: u64) -> Option<u64>
    requires { IsEncodable instr }
    ensures { result ≡ option_map (λ v. v % 2 ^ 64) (a64_written instr (value xregs (held state.now)) old) }
{
    match instr {
        A64::Cas(size, s, t, _) => {
            if old == low_bytes(size, state.value(s)) {
                Some(state.value(t))
            } else {
                None
            }
        }
        A64::Swp(_, s, ..) => Some(state.value(s)),
        A64::Ldadd(_, s, ..) => Some(old.wrapping_add(state.value(s))),
        A64::Ldclr(_, s, ..) => Some(old & !state.value(s)),
        A64::Ldeor(_, s, ..) => Some(old ^ state.value(s)),
        A64::Ldset(_, s, ..) => Some(old | state.value(s)),
        _ => None,
    }
}

/// A barrier.
pub(crate) fn barrier(state: &A64State, kind: FenceKind) -> ARow
    ensures { (read input : Option ℕ) → result ≡ shown None state.now (fences_at kind state.now.at (gets 0 (held state.now).nzcv)) read input }
{
    made(state, None, 0, NO_ITEMS, FenceChoice::Dmb(kind))
}

/// The trap of a `BRK`.
pub(crate) fn breaks(number: u16) -> ARow
    ensures { (set : Option XReg) (state : A64State) (read input : Option ℕ) → result ≡ shown set state (breaks number) read input }
{
    ended(End::Trap(match number {
        1 => TrapKind::Divide,
        2 => TrapKind::Invalid,
        3 => TrapKind::BadReturn,
        _ => TrapKind::BadJump,
    }))
}

/// The call of an `SVC`.
pub(crate) fn calls(state: &A64State, number: u16, input: Option<u64>) -> ARow
    ensures { (read : Option ℕ) → result ≡ shown (a64_result xregs (A64.Svc number)) state.now (calls number state.now.at (value xregs (held state.now) (xregs.register 7)) (held state.now).nzcv) read input }
{
    match number {
        1 => takes_in(state, input),
        2 => puts_out(state),
        3 => ended(End::Halted),
        _ => ended(End::Trap(TrapKind::BadJump)),
    }
}

/// An input into X0.
fn takes_in(state: &A64State, input: Option<u64>) -> ARow
    ensures { (read : Option ℕ) → result ≡ shown (Some (xregs.register 0)) state.now (takes_in state.now.at (λ v. gets v (held state.now).nzcv)) read input }
{
    let Some(value) = input else {
        return ARow::WantsInput;
    };
    let items = RowItems {
        input: Some(value),
        ..NO_ITEMS
    };
    made(
        state,
        Some(XReg { number: 0 }),
        value,
        items,
        FenceChoice::None,
    )
}

/// An output of X7.
fn puts_out(state: &A64State) -> ARow
    ensures { (read input : Option ℕ) → result ≡ shown None state.now (puts_out state.now.at (value xregs (held state.now) (xregs.register 7)) (gets 0 (held state.now).nzcv)) read input }
{
    let items = RowItems {
        output: Some(state.value(XReg { number: 7 })),
        ..NO_ITEMS
    };
    made(state, None, 0, items, FenceChoice::None)
}
