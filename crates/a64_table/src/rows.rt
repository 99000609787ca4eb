ghost use Rattle.std.specs.Prelude.{◌≡◌};
ghost use Rattle.ev_graph.specs.Memory.{allows};
ghost use Rattle.a64_code.specs.Ranges.{IsEncodable};
ghost use Rattle.a64_table.specs.State.{xregs, value, held};
ghost use Rattle.a64_table.specs.Rows.{a64_act, a64_result};
ghost use Rattle.a64_table.specs.Answers.{shown, row_answer};

use crate::acts;
use crate::state::A64State;
use crate::values::{computed, cut, holds, second};
use a64_code::{A64, XReg};
use ev_graph::{End, FenceKind, RowItems, StartMemory, Wanted};

/// Where a word leads.
#[derive(Clone, Copy, Debug, PartialEq, Eq)]
pub enum ANext {
    State(A64State),
    End(End),
}

/// Whether a word is a barrier, and which.
#[derive(Clone, Copy, Debug, PartialEq, Eq)]
pub enum FenceChoice {
    None,
    Dmb(FenceKind),
}

/// What a word does in a state, or which value it waits for.
#[derive(Clone, Copy, Debug, PartialEq, Eq)]
pub enum ARow {
    /// It makes this read, which is allowed, and no value was given.
    WantsRead(Wanted),
    /// It takes an input, and none was given.
    WantsInput,
    /// It makes these items and this fence, and leads there.
    Done(RowItems, FenceChoice, ANext),
}

/// What a word does in a state: its items, its fence and where it leads; or which value it waits for.
///
/// `memory` has the bytes of segments and of the thread's stack. `read` is the value of the word's
/// read, and `input` that of its input; where there is none of them the value is not used.
pub fn row<S: StartMemory>(
    instr: &A64<XReg>,
    state: &A64State,
    memory: &S,
    read: Option<u64>,
    input: Option<u64>,
) -> ARow
    requires { IsEncodable instr.now }
    ensures { result ≡ row_answer instr.now state.now (allows (S.cells memory.now)) read input }
{
    match computed(*instr, state) {
        Some(value) => acts::gets(state, set_by(*instr), value),
        None => acted(*instr, state, memory, read, input),
    }
}

/// What a word does that does more than compute.
fn acted<S: StartMemory>(
    instr: A64<XReg>,
    state: &A64State,
    memory: &S,
    read: Option<u64>,
    input: Option<u64>,
) -> ARow
    requires { IsEncodable instr }
    ensures { result ≡ shown (a64_result xregs instr) state.now (a64_act xregs (allows (S.cells memory.now)) state.now.at instr (value xregs (held state.now)) (held state.now).nzcv) read input }
{
    match instr {
        A64::Subs(x, d, n, m, kind, amount) => {
            acts::compare(
                state,
                d,
                x,
                cut(x, state, n),
                second(x, state, m, kind, amount),
            )
        }
        A64::B(distance) => acts::branch(state, true, distance),
        A64::BCond(code, distance) => acts::branch(state, holds(code, state.nzcv()), distance),
        A64::Cbz(x, t, distance) => acts::branch(state, cut(x, state, t) == 0, distance),
        A64::Cbnz(x, t, distance) => acts::branch(state, cut(x, state, t) != 0, distance),
        A64::Ldr(size, t, n, number) => {
            acts::load(
                state,
                memory,
                t,
                acts::offset(state, n, number, size),
                size,
                read,
            )
        }
        A64::Str(size, t, n, number) => {
            acts::store(
                state,
                memory,
                acts::offset(state, n, number, size),
                size,
                state.value(t),
            )
        }
        A64::Cas(size, s, _, n) => acts::exchange(instr, state, memory, s, n, size, read),
        A64::Swp(size, _, t, n)
        | A64::Ldadd(size, _, t, n)
        | A64::Ldclr(size, _, t, n)
        | A64::Ldeor(size, _, t, n)
        | A64::Ldset(size, _, t, n) => acts::exchange(instr, state, memory, t, n, size, read),
        A64::DmbFull => acts::barrier(state, FenceKind::DmbFull),
        A64::DmbLd => acts::barrier(state, FenceKind::DmbLd),
        A64::DmbSt => acts::barrier(state, FenceKind::DmbSt),
        A64::Brk(number) => acts::breaks(number),
        A64::Svc(number) => acts::calls(state, number, input),
        A64::Nop
        | A64::Add(..)
        | A64::Sub(..)
        | A64::And(..)
        | A64::Orr(..)
        | A64::Eor(..)
        | A64::AddImm(..)
        | A64::SubImm(..)
        | A64::Movz(..)
        | A64::Movk(..)
        | A64::Movn(..)
        | A64::Lslv(..)
        | A64::Lsrv(..)
        | A64::Asrv(..)
        | A64::Rorv(..)
        | A64::Udiv(..)
        | A64::Sdiv(..)
        | A64::Madd(..)
        | A64::Msub(..)
        | A64::Smulh(..)
        | A64::Umulh(..)
        | A64::Ubfm(..)
        | A64::Sbfm(..)
        | A64::Csel(..)
        | A64::Csinc(..) => acts::gets(state, set_by(instr), 0),
    }
}

/// The register that a word sets.
fn set_by(instr: A64<XReg>) -> Option<XReg>
    ensures { result ≡ a64_result xregs instr }
{
    match instr {
        A64::Add(_, d, ..)
        | A64::Sub(_, d, ..)
        | A64::Subs(_, d, ..)
        | A64::And(_, d, ..)
        | A64::Orr(_, d, ..)
        | A64::Eor(_, d, ..)
        | A64::AddImm(_, d, ..)
        | A64::SubImm(_, d, ..)
        | A64::Movz(_, d, ..)
        | A64::Movk(_, d, ..)
        | A64::Movn(_, d, ..)
        | A64::Lslv(_, d, ..)
        | A64::Lsrv(_, d, ..)
        | A64::Asrv(_, d, ..)
        | A64::Rorv(_, d, ..)
        | A64::Udiv(_, d, ..)
        | A64::Sdiv(_, d, ..)
        | A64::Madd(_, d, ..)
        | A64::Msub(_, d, ..)
        | A64::Smulh(d, ..)
        | A64::Umulh(d, ..)
        | A64::Ubfm(_, d, ..)
        | A64::Sbfm(_, d, ..)
        | A64::Csel(_, d, ..)
        | A64::Csinc(_, d, ..) => Some(d),
        A64::Ldr(_, t, ..) => Some(t),
        A64::Cas(_, s, ..) => Some(s),
        A64::Swp(_, _, t, _)
        | A64::Ldadd(_, _, t, _)
        | A64::Ldclr(_, _, t, _)
        | A64::Ldeor(_, _, t, _)
        | A64::Ldset(_, _, t, _) => Some(t),
        A64::Svc(1) => Some(XReg { number: 0 }),
        A64::B(_)
        | A64::BCond(..)
        | A64::Cbz(..)
        | A64::Cbnz(..)
        | A64::Str(..)
        | A64::DmbFull
        | A64::DmbLd
        | A64::DmbSt
        | A64::Nop
        | A64::Brk(_)
        | A64::Svc(_) => None,
    }
}
