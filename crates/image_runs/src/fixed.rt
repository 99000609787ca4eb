use crate::form_runs::bytes_of;
use crate::made::{CELLS_AT, Event};
use crate::ran::{Ran, Stop};
use crate::subject::{Start, Subject};
use crate::tally::Tally;
use alu_width::Flags;
use ev_graph::{End, TrapKind};
use std::alloc::{AllocError, Global};

/// Programs by hand. Each is a line: its bytes, how it ends, its outputs, and behind a semicolon its text. The listed
/// functions are at 402000 (input) and 402010 (output); the first inputs are 8000000000000001 and 7FFFFFFFFFFFFFFF.
const FIXED: &str = "\
C3 halts ; ret\n\
6A05C3 bad-return ; push 5; ret\n\
E801000000C3488D05F9FFFFFF50C3 bad-return ; call 401006; ret; 401006: lea rax, [rip - 7]; push rax; ret\n\
E801000000C3E801000000C358C3 halts ; call 401006; ret; 401006: call 40100C; ret; 40100C: pop rax; ret\n\
0F0B invalid ; ud2\n\
E801000000C30F0B invalid ; call 401006; ret; 401006: ud2\n\
E8FB0F00004889C7E803100000E8EE0F00004801C7E9F60F0000 halts 8000000000000001 0 ; \
call 402000; mov rdi, rax; call 402010; call 402000; add rdi, rax; jmp 402010\n\
E80D0000004889C7E805000000E9FE0F0000E9E90F0000 halts 8000000000000001 ; \
call 401012; mov rdi, rax; call 401012; jmp 402010; 401012: jmp 402000\n\
E8FBFFFFFFC3 bad-access ; 401000: call 401000; ret\n\
488B00C3 bad-access ; mov rax, [rax]; ret\n\
B9050000004801C848FFC975F84889C7E9FB0F0000 halts F ; \
mov ecx, 5; 401005: add rax, rcx; dec rcx; jne 401005; mov rdi, rax; jmp 402010\n\
B904000000E8080000004889C7E9FE0F00004885C9740D48FFC9E8F3FFFFFF488D440001C3 halts F ; \
mov ecx, 4; call 401012; mov rdi, rax; jmp 402010; 401012: test rcx, rcx; je 401024; dec rcx; call 401012; \
lea rax, [rax + rax + 1]; 401024: ret\n\
E801000000C34885C07401C3BF07000000E9FA0F0000 halts 7 ; \
call 401006; ret; 401006: test rax, rax; je 40100C; ret; 40100C: mov edi, 7; jmp 402010\n\
BA00000080BFFFFFFFFFF7FFC3 divide ; mov edx, 80000000; mov edi, -1; idiv edi; ret\n\
B80000008099BFFFFFFFFFF7FFC3 divide ; mov eax, 80000000; cdq; mov edi, -1; idiv edi; ret\n\
B811000000F77424F0C3 divide ; mov eax, 17; div dword ptr [rsp - 16]; ret\n\
B8E8030000BA00000000B907000000F7F189D7E9F80F0000 halts 6 ; \
mov eax, 1000; mov edx, 0; mov ecx, 7; div ecx; mov edi, edx; jmp 402010\n\
BF01000000B906000000480FAFF948FFC975F7E9F80F0000 halts 2D0 ; \
mov edi, 1; mov ecx, 6; 40100A: imul rdi, rcx; dec rcx; jne 40100A; jmp 402010\n\
BA05000000F0480FC15424F8F0480FC15424F8488D3C1248037C24F8E9EF0F0000 halts F ; \
mov edx, 5; lock xadd [rsp - 8], rdx; lock xadd [rsp - 8], rdx; lea rdi, [rdx + rdx]; add rdi, [rsp - 8]; \
jmp 402010\n\
BA05000000F0480FB15424F87511F0480FB15424F874084889C7E9F10F00000F0B halts 5 ; \
mov edx, 5; lock cmpxchg [rsp - 8], rdx; jne 40101F; lock cmpxchg [rsp - 8], rdx; je 40101F; mov rdi, rax; \
jmp 402010; 40101F: ud2\n\
BF81000000B90400000040D2C7C1E702D1FFE9F90F0000 halts 30 ; \
mov edi, 81; mov ecx, 4; rol dil, cl; shl edi, 2; sar edi, 1; jmp 402010\n\
";

/// The stack pointer at the start: 8 below the end of the cells, which are 0.
const TOP: u64 = CELLS_AT + 0xFF8;

/// The start of thread 0.
fn start() -> Start {
    let mut registers = [0; 16];
    registers[4] = TOP;
    Start {
        registers,
        flags: Flags {
            cf: false,
            zf: false,
            sf: false,
            of: false,
        },
    }
}

/// Runs the programs by hand, and holds the ends and outputs of each against its line.
pub fn run_fixed<R: Print + AllocGlobal>(rt: &R) -> anyhow::Result<Tally> {
    let alloc = rt.alloc();
    let mut tally = Tally::default();
    let mut cells = Vec::new(alloc);
    cells.resize(0x1000, 0)?;
    for line in FIXED.lines() {
        run_line(rt, &mut tally, line, cells.as_slice())?;
    }
    Ok(tally)
}

/// Runs the program of a line on these cells.
fn run_line<R: Print + AllocGlobal>(
    rt: &R,
    tally: &mut Tally,
    line: &str,
    cells: &[u8],
) -> anyhow::Result<()> {
    let alloc = rt.alloc();
    let subject = Subject::of(alloc, bytes_of(alloc, line)?, cells)?;
    tally.programs = tally.programs.wrapping_add(1);
    let wanted = subject.compare(rt, tally, line, &start(), Some(cells))?;
    if !is_as_told(alloc, &wanted, line)? {
        tally.tell(rt, line, "the program and its line")?;
    }
    Ok(())
}

/// Whether a run has the end and the outputs of a line.
fn is_as_told(alloc: Global, ran: &Ran, line: &str) -> Result<bool, AllocError> {
    let mut words = line.split_ascii_whitespace().skip(1);
    if words.next().and_then(end_of).map(Stop::Ended) != Some(ran.stop) {
        return Ok(false);
    }
    let mut outputs = Vec::new(alloc);
    for word in words {
        match u64::from_str_radix(word, 16) {
            Ok(number) => outputs.push(number)?,
            Err(_) => break,
        }
    }
    Ok(outputs_of(alloc, ran)?.as_slice() == outputs.as_slice())
}

/// The end with a name.
fn end_of(name: &str) -> Option<End> {
    match name {
        "halts" => Some(End::Halted),
        "bad-return" => Some(End::Trap(TrapKind::BadReturn)),
        "bad-access" => Some(End::Trap(TrapKind::BadAccess)),
        "invalid" => Some(End::Trap(TrapKind::Invalid)),
        "divide" => Some(End::Trap(TrapKind::Divide)),
        _ => None,
    }
}

/// The outputs of a run.
fn outputs_of(alloc: Global, ran: &Ran) -> Result<Vec<u64>, AllocError> {
    let mut outputs = Vec::new(alloc);
    for event in ran.made.events.as_slice() {
        if let Event::Output(value) = event {
            outputs.push(*value)?;
        }
    }
    Ok(outputs)
}
