//! Accesses that are not allowed, and values that are missing.

use crate::window::Permission;
use alu_width::Flags;
use ev_graph::{AccessKind, End, RowItems, TrapKind, Wanted};
use std::process::Abort;
use std::test::Fail;
use x64_decode::decode_one;
use x64_syntax::Flow;
use x64_table::{Next, X64State, XRow, row};

const WHOLE: Permission = Permission { writable: true };

const READ_ONLY: Permission = Permission { writable: false };

const NOTHING: RowItems = RowItems {
    input: None,
    output: None,
    read: None,
    write: None,
    fence: false,
};

const BAD_ACCESS: XRow = XRow::Done(NOTHING, Next::End(End::Trap(TrapKind::BadAccess)));

/// A state whose registers hold this address, and RAX 5.
fn state_at(address: u64) -> X64State {
    let mut regs = [address; 16];
    regs[0] = 5;
    X64State {
        regs,
        flags: Flags {
            cf: false,
            zf: false,
            sf: false,
            of: false,
        },
        at: 0x401000,
    }
}

/// What the instruction of these bytes answers where the registers hold this address.
fn taken(
    rt: &impl Abort,
    code: &[u8],
    flow: Flow,
    address: u64,
    permission: &Permission,
    read: Option<u64>,
    input: Option<u64>,
) -> XRow {
    match decode_one(code) {
        Ok((instr, length)) => row(
            &instr,
            length,
            flow,
            &state_at(address),
            permission,
            read,
            input,
        ),
        Err(_) => panic!(rt; "the bytes are no instruction"),
    }
}

const INSIDE: u64 = 0x2000_0020;

const OUTSIDE: u64 = 0x2000_0039;

/// `add [rdi], rax`
const ADD: [u8; 3] = [0x48, 0x01, 0x07];
/// `lock add [rdi], rax`
const LOCK_ADD: [u8; 4] = [0xF0, 0x48, 0x01, 0x07];
/// `div dword [rdi]`
const DIV: [u8; 2] = [0xF7, 0x37];
/// `call` and `jmp` to an address far behind
const CALL: [u8; 5] = [0xE8, 0, 0, 0, 1];

const JMP: [u8; 5] = [0xE9, 0, 0, 0, 1];

#[test]
fn a_read_is_wanted_where_it_is_allowed(rt: HostRuntime) -> Result<(), Fail> {
    let plain = taken(&rt, &ADD, Flow::Plain, INSIDE, &READ_ONLY, None, None);
    assert_eq!(rt;
        plain,
        XRow::WantsRead(Wanted {
            address: INSIDE,
            size: 8,
            locked: false
        })
    );
    let locked = taken(&rt, &LOCK_ADD, Flow::Plain, INSIDE, &WHOLE, None, None);
    assert_eq!(rt;
        locked,
        XRow::WantsRead(Wanted {
            address: INSIDE,
            size: 8,
            locked: true
        })
    );
    let outside = taken(&rt, &ADD, Flow::Plain, OUTSIDE, &WHOLE, None, None);
    assert_eq!(rt; outside, BAD_ACCESS);
    let unlocked = taken(&rt, &LOCK_ADD, Flow::Plain, INSIDE, &READ_ONLY, None, None);
    assert_eq!(rt; unlocked, BAD_ACCESS, "both permissions come first");
    Ok(())
}

#[test]
fn halves_are_tested_one_by_one(rt: HostRuntime) -> Result<(), Fail> {
    let XRow::Done(made, next) = taken(&rt, &ADD, Flow::Plain, INSIDE, &READ_ONLY, Some(7), None)
    else {
        panic!(rt; "the row is done");
    };
    assert_eq!(rt; next, Next::End(End::Trap(TrapKind::BadAccess)));
    assert_eq!(rt; made.write, None);
    assert!(rt;
        made.read.is_some_and(|a| a.kind == AccessKind::Read && a.value == 7 && a.place == 0x401000)
    );
    Ok(())
}

#[test]
fn a_division_traps_after_its_read(rt: HostRuntime) -> Result<(), Fail> {
    let XRow::Done(made, next) = taken(&rt, &DIV, Flow::Plain, INSIDE, &WHOLE, Some(0), None) else {
        panic!(rt; "the row is done");
    };
    assert_eq!(rt; next, Next::End(End::Trap(TrapKind::Divide)));
    assert!(rt; made.read.is_some_and(|a| a.size == 4 && a.value == 0));
    Ok(())
}

#[test]
fn a_listed_call_writes_before_its_input(rt: HostRuntime) -> Result<(), Fail> {
    let missing = taken(&rt, &CALL, Flow::ListedIn, INSIDE, &WHOLE, None, None);
    assert_eq!(rt; missing, XRow::WantsInput);
    let forbidden = taken(&rt, &CALL, Flow::ListedIn, INSIDE, &READ_ONLY, None, None);
    assert_eq!(rt; forbidden, BAD_ACCESS, "it takes no input");
    let XRow::Done(made, Next::State(after)) = taken(
        &rt,
        &CALL,
        Flow::ListedIn,
        INSIDE,
        &WHOLE,
        None,
        Some(9),
    ) else {
        panic!(rt; "the row goes on");
    };
    assert_eq!(rt;
        (made.input, after.regs[0], after.regs[4], after.at),
        (Some(9), 9, INSIDE, 0x401005)
    );
    assert!(rt;
        made.write
            .is_some_and(|a| a.address == INSIDE - 8 && a.value == 0x401005)
    );
    Ok(())
}

#[test]
fn a_listed_jump_wants_its_read_first(rt: HostRuntime) -> Result<(), Fail> {
    let neither = taken(&rt, &JMP, Flow::ListedIn, INSIDE, &WHOLE, None, None);
    assert_eq!(rt;
        neither,
        XRow::WantsRead(Wanted {
            address: INSIDE,
            size: 8,
            locked: false
        })
    );
    let read = taken(&rt, &JMP, Flow::ListedIn, INSIDE, &WHOLE, Some(3), None);
    assert_eq!(rt; read, XRow::WantsInput);
    let outside = taken(&rt, &JMP, Flow::ListedIn, OUTSIDE, &WHOLE, None, None);
    assert_eq!(rt; outside, XRow::WantsInput);
    let XRow::Done(made, Next::Return(after, target)) = taken(
        &rt,
        &JMP,
        Flow::ListedIn,
        INSIDE,
        &WHOLE,
        Some(3),
        Some(9),
    ) else {
        panic!(rt; "the row returns");
    };
    assert_eq!(rt;
        (made.input, after.regs[0], after.regs[4], target),
        (Some(9), 9, INSIDE + 8, 3)
    );
    let XRow::Done(made, next) = taken(&rt, &JMP, Flow::ListedOut, OUTSIDE, &WHOLE, None, None)
    else {
        panic!(rt; "the row is done");
    };
    assert_eq!(rt;
        (made.output, next),
        (Some(OUTSIDE), Next::End(End::Trap(TrapKind::BadAccess)))
    );
    Ok(())
}

#[test]
fn a_table_jump_gives_its_index(rt: HostRuntime) -> Result<(), Fail> {
    // jmp [rax*8+0x401000]
    let code = [0xFF, 0x24, 0xC5, 0x00, 0x10, 0x40, 0x00];
    let XRow::Done(made, Next::Indexed(after, index)) = taken(
        &rt,
        &code,
        Flow::TableJump,
        OUTSIDE,
        &READ_ONLY,
        None,
        None,
    ) else {
        panic!(rt; "the row gives an index");
    };
    assert_eq!(rt; (made, after.at, index), (NOTHING, 0x401007, 5));
    let plain = taken(&rt, &code, Flow::Plain, OUTSIDE, &READ_ONLY, None, None);
    assert_eq!(rt;
        plain,
        XRow::Done(NOTHING, Next::End(End::Trap(TrapKind::BadJump)))
    );
    Ok(())
}
