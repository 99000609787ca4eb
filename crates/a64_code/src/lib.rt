//! What A64 instructions are, and the words that spell them.
//! Others rest on the type `A64`, on `encode` and `decode_word`, which are inverse to one another on exactly the words that spell an instruction (`IsSpelling`), and on the operands' ranges, `IsEncodable`.
//! Source: Arm ARM (DDI 0487), chapters C4 (encodings) and C6 (base instructions).
#![tactic(auto)]

mod decoding;
mod encoding;
mod instr;
mod ranges;

pub use decoding::decode_word;
pub use encoding::encode;
pub use instr::{A64, XReg};
