//! Rows against what an emulator gave, and by hand where an emulator has none.

mod table;

use crate::{A64State, ANext, ARow, FenceChoice, row};
use a64_code::decode_word;
use ev_graph::{Access, End, FenceKind, RowItems, StartMemory, TrapKind, Wanted};
use std::alloc::Global;
use std::process::Abort;
use std::test::Fail;

/// Memory in which every access is allowed.
struct Everything;

impl StartMemory for Everything {
    ghost use Rattle.std.specs.Prelude.{Some, true};

    ghost cells = { λ _ _. Some (record { byte = 0; readable = true; writable = true }) };

    fn start_byte(&self, _address: u64) -> Option<u8> {
        Some(0)
    }

    fn allows(&self, _address: u64, _size: u8, _write: bool) -> bool {
        true
    }
}

/// Memory without a byte.
struct Nothing;

impl StartMemory for Nothing {
    ghost use Rattle.std.specs.Prelude.{None};

    ghost cells = { λ _ _. None };

    fn start_byte(&self, _address: u64) -> Option<u8> {
        None
    }

    fn allows(&self, _address: u64, size: u8, _write: bool) -> bool {
        size == 0
    }
}

const PLACE: u64 = 0x40_1000;

const CELL: u64 = 0x40_4000;

/// A state in which X1 to X4 hold these numbers; in the flags N is 8, Z 4, C 2 and V 1.
fn state_of(flags: u64, x1: u64, x2: u64, x3: u64, x4: u64) -> A64State {
    let mut regs = [0; 31];
    regs[1] = x1;
    regs[2] = x2;
    regs[3] = x3;
    regs[4] = x4;
    A64State {
        regs,
        n: flags & 8 != 0,
        z: flags & 4 != 0,
        c: flags & 2 != 0,
        v: flags & 1 != 0,
        at: PLACE,
    }
}

fn low_bytes(size: u8, value: u64) -> u64 {
    match size {
        1 => value % 0x100,
        2 => value % 0x1_0000,
        4 => value % 0x1_0000_0000,
        _ => value,
    }
}

const NO_ITEMS: RowItems = RowItems {
    input: None,
    output: None,
    read: None,
    write: None,
    fence: false,
};

/// What a word does in a memory.
fn told<S: StartMemory>(
    rt: &impl Abort,
    word: u32,
    state: &A64State,
    memory: &S,
    read: Option<u64>,
    input: Option<u64>,
) -> ARow {
    let Some(instr) = decode_word(word) else {
        panic!(rt; "{word:x} spells nothing");
    };
    row(&instr, state, memory, read, input)
}

/// The cell after an access.
fn cell_after(rt: &impl Abort, cell: u64, write: Option<Access>) -> u64 {
    match write {
        Some(access) => {
            assert_eq!(rt; access.address, CELL);
            cell.wrapping_sub(low_bytes(access.size, cell))
                .wrapping_add(access.value)
        }
        None => cell,
    }
}

/// The numbers of a line.
fn numbers(alloc: Global, line: &str) -> Result<Vec<u64>, Fail> {
    let mut all = Vec::new(alloc);
    for word in line.split_ascii_whitespace() {
        all.push(u64::from_str_radix(word, 16)?)?;
    }
    Ok(all)
}

/// What a word does where every access is allowed, on the value of the cell where it reads.
fn done(rt: &impl Abort, word: u32, state: &A64State, cell: u64) -> (RowItems, ANext) {
    let answer = match told(rt, word, state, &Everything, None, None) {
        ARow::WantsRead(wanted) => {
            assert_eq!(rt; wanted.address, CELL, "{word:x}");
            let value = low_bytes(wanted.size, cell);
            told(rt, word, state, &Everything, Some(value), None)
        }
        answer => answer,
    };
    match answer {
        ARow::Done(items, _, next) => (items, next),
        _ => panic!(rt; "{word:x} wants a value"),
    }
}

fn check_row(rt: &impl Abort, line: &[u64]) {
    let [
        word,
        flags,
        x1,
        x2,
        x3,
        x4,
        cell,
        later,
        y1,
        y3,
        written,
        taken,
    ] = line
    else {
        panic!(rt; "a line of another length");
    };
    let state = state_of(*flags, *x1, *x2, *x3, *x4);
    let (items, next) = done(rt, (*word % 0x1_0000_0000) as u32, &state, *cell);
    let mut wanted = state_of(*later, *y1, *x2, *y3, *x4);
    wanted.at = if *taken == 1 { PLACE + 12 } else { PLACE + 4 };
    assert_eq!(rt; next, ANext::State(wanted), "{word:x}");
    assert_eq!(rt; cell_after(rt, *cell, items.write), *written, "{word:x}");
}

#[test]
fn rows_as_the_emulator(rt: HostRuntime) -> Result<(), Fail> {
    for line in table::ROWS.lines() {
        check_row(&rt, numbers(rt.alloc(), line)?.as_slice());
    }
    Ok(())
}

#[test]
fn ends(rt: HostRuntime) {
    let state = state_of(0, 0, 0, 0, 0);
    let ends = [
        // brk #1 to brk #4, svc #3
        (0xD420_0020, End::Trap(TrapKind::Divide)),
        (0xD420_0040, End::Trap(TrapKind::Invalid)),
        (0xD420_0060, End::Trap(TrapKind::BadReturn)),
        (0xD420_0080, End::Trap(TrapKind::BadJump)),
        (0xD400_0061, End::Halted),
    ];
    for (word, end) in ends {
        let answer = told(&rt, word, &state, &Everything, None, None);
        assert_eq!(rt;
            answer,
            ARow::Done(NO_ITEMS, FenceChoice::None, ANext::End(end))
        );
    }
}

#[test]
fn inputs_and_outputs(rt: HostRuntime) {
    let mut state = state_of(5, 1, 2, 3, 4);
    state.regs[7] = 70;
    let mut next = state;
    next.at = PLACE + 4;
    let output = RowItems {
        output: Some(70),
        ..NO_ITEMS
    };
    // svc #2
    let answer = told(&rt, 0xD400_0041, &state, &Everything, None, Some(9));
    assert_eq!(rt;
        answer,
        ARow::Done(output, FenceChoice::None, ANext::State(next))
    );
    // svc #1
    let answer = told(&rt, 0xD400_0021, &state, &Everything, Some(9), None);
    assert_eq!(rt; answer, ARow::WantsInput);
    next.regs[0] = 9;
    let input = RowItems {
        input: Some(9),
        ..NO_ITEMS
    };
    let answer = told(&rt, 0xD400_0021, &state, &Everything, None, Some(9));
    assert_eq!(rt;
        answer,
        ARow::Done(input, FenceChoice::None, ANext::State(next))
    );
}

#[test]
fn barriers(rt: HostRuntime) {
    let state = state_of(0, 0, 0, 0, 0);
    let mut next = state;
    next.at = PLACE + 4;
    let kinds = [
        // dmb ish, dmb ishld, dmb ishst
        (0xD503_3BBF, FenceKind::DmbFull),
        (0xD503_39BF, FenceKind::DmbLd),
        (0xD503_3ABF, FenceKind::DmbSt),
    ];
    for (word, kind) in kinds {
        let answer = told(&rt, word, &state, &Everything, None, None);
        assert_eq!(rt;
            answer,
            ARow::Done(NO_ITEMS, FenceChoice::Dmb(kind), ANext::State(next))
        );
    }
}

#[test]
fn accesses_that_are_not_allowed(rt: HostRuntime) {
    let state = state_of(0, 0, CELL, 3, 0);
    let end = ANext::End(End::Trap(TrapKind::BadAccess));
    let bad = ARow::Done(NO_ITEMS, FenceChoice::None, end);
    // ldr w1, [x2]; str w1, [x2]; cas w1, w3, [x2]; ldadd w1, w3, [x2]
    for word in [0xB940_0041, 0xB900_0041, 0x88A1_7C43, 0xB821_0043] {
        assert_eq!(rt; told(&rt, word, &state, &Nothing, None, None), bad);
    }
}

#[test]
fn reads_that_wait(rt: HostRuntime) {
    let state = state_of(0, 0, CELL, 3, 0);
    // ldr w1, [x2]; cas w1, w3, [x2]; ldadd w1, w3, [x2]
    for (word, locked) in [
        (0xB940_0041, false),
        (0x88A1_7C43, true),
        (0xB821_0043, true),
    ] {
        let wanted = Wanted {
            address: CELL,
            size: 4,
            locked,
        };
        let answer = told(&rt, word, &state, &Everything, None, Some(0));
        assert_eq!(rt; answer, ARow::WantsRead(wanted));
    }
}
