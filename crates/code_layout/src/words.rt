ghost use Rattle.std.specs.Prelude.{◌≡◌, ◌<◌, ◌≤◌, ◌^◌, ◌+◌, ◌-ℤ◌, pos, [], ◌∷◌, ◌++◌, length, OnOk};
ghost use Rattle.code_layout.specs.Code.{quarter_of, jump, compare_words, leaf_words, fork_words};

use a64_block::break_of;
use a64_code::{A64, XReg};
use ev_graph::{NoMemory, TrapKind};

/// The condition NE.
const NOT_EQUAL: u8 = 1;

/// The condition LO: lower, without sign.
const LOWER: u8 = 3;

/// The distance over the next word.
pub const OVER_NEXT: i32 = 2;

/// The register that holds a return address where the words of the returns begin.
pub const POPPED: XReg = XReg { number: 16 };

/// The register for an address that is compared with it.
const SITE: XReg = XReg { number: 17 };

/// The zero register.
pub const ZERO: XReg = XReg { number: 31 };

/// How many words it is from one place to another.
fn distance(from: u64, to: u64) -> i32
    requires from { from ≤ 2 ^ 24 }
    requires to { to ≤ 2 ^ 24 }
    ensures { result ≡ pos to -ℤ pos from }
{
    to as i32 - from as i32
}

/// Appends the word that goes to a place.
pub fn push_jump(code: &mut Vec<A64<XReg>>, to: u64) -> Result<(), NoMemory>
    requires from { length code.old.items ≤ 2 ^ 24 }
    requires to { to ≤ 2 ^ 24 }
    ensures { OnOk result (code.new.items ≡ code.old.items ++ jump (length code.old.items) to ∷ []) }
{
    let from = code.len() as u64;
    code.push(A64::B(distance(from, to)))?;
    Ok(())
}

/// 16 bits of an address.
fn quarter_of(address: u64, quarter: u8) -> u16
    requires { quarter < 4 }
    ensures { result ≡ quarter_of address quarter }
{
    (address >> (16 * u32::from(quarter)) & 0xFFFF) as u16
}

/// Appends the words that compare the return address with another.
fn push_compare(code: &mut Vec<A64<XReg>>, address: u64) -> Result<(), NoMemory>
    ensures { OnOk result (code.new.items ≡ code.old.items ++ compare_words address) }
{
    code.push(A64::Movz(true, SITE, quarter_of(address, 0), 0))?;
    code.push(A64::Movk(true, SITE, quarter_of(address, 1), 1))?;
    code.push(A64::Movk(true, SITE, quarter_of(address, 2), 2))?;
    code.push(A64::Movk(true, SITE, quarter_of(address, 3), 3))?;
    code.push(A64::Subs(true, ZERO, POPPED, SITE, 0, 0))?;
    Ok(())
}

/// Appends the words that go to a place where the return address is a site, and else end the thread.
pub fn push_leaf(code: &mut Vec<A64<XReg>>, site: u64, place: u64) -> Result<(), NoMemory>
    requires from { length code.old.items ≤ 2 ^ 23 }
    requires to { place ≤ 2 ^ 24 }
    ensures { OnOk result (code.new.items ≡ code.old.items ++ leaf_words (length code.old.items) site place) }
{
    push_compare(code, site)?;
    code.push(A64::BCond(NOT_EQUAL, OVER_NEXT))?;
    push_jump(code, place)?;
    code.push(A64::Brk(break_of(TrapKind::BadReturn)))?;
    Ok(())
}

/// Appends the words that go to a place where the return address is not lower than a site, and else on.
pub fn push_fork(code: &mut Vec<A64<XReg>>, site: u64, place: u64) -> Result<(), NoMemory>
    requires from { length code.old.items ≤ 2 ^ 23 }
    requires to { place ≤ 2 ^ 24 }
    ensures { OnOk result (code.new.items ≡ code.old.items ++ fork_words (length code.old.items) site place) }
{
    push_compare(code, site)?;
    code.push(A64::BCond(LOWER, OVER_NEXT))?;
    push_jump(code, place)
}
