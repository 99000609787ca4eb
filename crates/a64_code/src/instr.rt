ghost use Rattle.std.specs.Prelude.{◌≡◌, ⊤};

use std::alloc::AllocError;

/// A 64-bit register by its number: X0 to X17 and X19 to X28, or 31, the zero register, where an
/// instruction may name it.
#[derive(Clone, Copy, Debug, PartialEq, Eq)]
pub struct XReg {
    pub number: u8,
}

/// An A64 instruction over registers of type `R` (Arm ARM, chapter C6).
///
/// A leading `bool` is true for the form on all 64 bits (X) and false for the form on the low 32 (W).
/// A leading number is the size of an access in bytes: 1, 2, 4 or 8. Registers stand in the order Rd,
/// Rn, Rm, Ra; in loads and stores in the order Rt, Rn; in `Cas` and the other atomic operations in
/// the order Rs, Rt, Rn. A shift's kind is 0 for `LSL`, 1 for `LSR` and 2 for `ASR`, and its amount is
/// below the form's width. A condition is its code, 0 (`EQ`) to 13 (`LE`). A distance counts words
/// from the instruction itself.
#[derive(Copy, Debug, PartialEq, Eq)]
pub enum A64<R> {
    /// `ADD`, shifted register: kind of shift and amount.
    Add(bool, R, R, R, u8, u8),
    /// `SUB`, shifted register: as `Add`.
    Sub(bool, R, R, R, u8, u8),
    /// `SUBS`, shifted register, which sets the flags: as `Add`.
    Subs(bool, R, R, R, u8, u8),
    /// `AND`, shifted register: as `Add`.
    And(bool, R, R, R, u8, u8),
    /// `ORR`, shifted register: as `Add`.
    Orr(bool, R, R, R, u8, u8),
    /// `EOR`, shifted register: as `Add`.
    Eor(bool, R, R, R, u8, u8),
    /// `ADD`, immediate: a number below 4,096.
    AddImm(bool, R, R, u16),
    /// `SUB`, immediate: a number below 4,096.
    SubImm(bool, R, R, u16),
    /// `MOVZ`: 16 bits, and the quarter where they stand, below 4 or 2.
    Movz(bool, R, u16, u8),
    /// `MOVK`: as `MOVZ`, and the other bits stay.
    Movk(bool, R, u16, u8),
    /// `MOVN`: the complement of what `MOVZ` gives.
    Movn(bool, R, u16, u8),
    /// `LSLV`: a shift to the left by a register.
    Lslv(bool, R, R, R),
    /// `LSRV`: a shift to the right by a register, by zeros.
    Lsrv(bool, R, R, R),
    /// `ASRV`: a shift to the right by a register, by the sign.
    Asrv(bool, R, R, R),
    /// `RORV`: a turn to the right by a register.
    Rorv(bool, R, R, R),
    /// `UDIV`.
    Udiv(bool, R, R, R),
    /// `SDIV`.
    Sdiv(bool, R, R, R),
    /// `MADD`: Ra plus the product.
    Madd(bool, R, R, R, R),
    /// `MSUB`: Ra minus the product.
    Msub(bool, R, R, R, R),
    /// `SMULH`: the upper half of the signed product.
    Smulh(R, R, R),
    /// `UMULH`: the upper half of the unsigned product.
    Umulh(R, R, R),
    /// `UBFM`: immr and imms, below 64 or 32.
    Ubfm(bool, R, R, u8, u8),
    /// `SBFM`: as `UBFM`.
    Sbfm(bool, R, R, u8, u8),
    /// `CSEL`: Rn where the condition holds, else Rm.
    Csel(bool, R, R, R, u8),
    /// `CSINC`: Rn where the condition holds, else Rm + 1.
    Csinc(bool, R, R, R, u8),
    /// `B`: the distance, from -2^25 to 2^25 - 1.
    B(i32),
    /// `B.cond`: the condition and the distance, from -2^18 to 2^18 - 1.
    BCond(u8, i32),
    /// `CBZ`: the distance, from -2^18 to 2^18 - 1.
    Cbz(bool, R, i32),
    /// `CBNZ`: as `CBZ`.
    Cbnz(bool, R, i32),
    /// `LDR`, `LDRH`, `LDRB`: the offset in units of the size, below 4,096.
    Ldr(u8, R, R, u16),
    /// `STR`, `STRH`, `STRB`: the offset as for `LDR`.
    Str(u8, R, R, u16),
    /// `CAS`, `CASH`, `CASB`: Rs is compared and gets the old value, Rt is written where equal.
    Cas(u8, R, R, R),
    /// `SWP`, `SWPH`, `SWPB`: Rs is written, Rt gets the old value.
    Swp(u8, R, R, R),
    /// `LDADD`, `LDADDH`, `LDADDB`: Rs is added, Rt gets the old value.
    Ldadd(u8, R, R, R),
    /// `LDCLR`, `LDCLRH`, `LDCLRB`: the bits of Rs are cleared, Rt gets the old value.
    Ldclr(u8, R, R, R),
    /// `LDEOR`, `LDEORH`, `LDEORB`: the bits of Rs are turned over, Rt gets the old value.
    Ldeor(u8, R, R, R),
    /// `LDSET`, `LDSETH`, `LDSETB`: the bits of Rs are set, Rt gets the old value.
    Ldset(u8, R, R, R),
    /// `DMB ISH`.
    DmbFull,
    /// `DMB ISHLD`.
    DmbLd,
    /// `DMB ISHST`.
    DmbSt,
    /// `NOP`.
    Nop,
    /// `BRK`: 1 to 4, a trap: Divide, Invalid, BadReturn, BadJump.
    Brk(u16),
    /// `SVC`: 1 takes an input into X0, 2 puts out X7, 3 halts.
    Svc(u16),
}

/// An instruction is copied.
impl<R: Copy> Clone for A64<R> {
    ghost is_clone = { λ old new. new ≡ old };

    ghost is_infallible = { λ _. ⊤ };

    fn clone(&self) -> Result<A64<R>, AllocError> {
        Ok(*self)
    }
}
