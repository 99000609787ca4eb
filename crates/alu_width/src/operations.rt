/// AND, OR and XOR.
#[derive(Clone, Copy, PartialEq, Eq)]
pub enum Logic {
    And,
    Or,
    Xor,
}

/// The shifts: to the left, to the right by zeros, and to the right by the sign.
#[derive(Clone, Copy, PartialEq, Eq)]
pub enum Shift {
    Shl,
    Shr,
    Sar,
}

/// The rotates, to the left and to the right, without the carry.
#[derive(Clone, Copy, PartialEq, Eq)]
pub enum Rotate {
    Rol,
    Ror,
}

/// A double product of 2 * W bits in two halves. `over` says that it is not the extension of its low half,
/// which is CF and OF of the multiplication.
#[derive(Clone, Copy, PartialEq, Eq)]
pub struct Product {
    pub low: u64,
    pub high: u64,
    pub over: bool,
}

/// A quotient, rounded towards zero, and its remainder, which has the dividend's sign; each of W bits.
#[derive(Clone, Copy, Debug, PartialEq, Eq)]
pub struct Quotient {
    pub quotient: u64,
    pub remainder: u64,
}

/// Why a division has no answer: the divisor is 0, or the quotient does not fit W bits.
#[derive(Clone, Copy, Debug, PartialEq, Eq)]
pub enum DivFault {
    Zero,
    Range,
}
