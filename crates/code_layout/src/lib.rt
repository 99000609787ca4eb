//! The layout of a program's blocks of A64 words as the code of an AArch64 image.
//! Others rest on `lay_out`, whose words carry out each block from its place on: `IsCarriedOut`.
//! Source: Arm ARM, C6.2 (the words); Knuth, The Art of Computer Programming, volume 3, 6.2.1 (search by halves).
#![tactic(auto)]

mod code;
mod layout;
mod places;
mod search;
mod words;

pub use layout::lay_out;

#[cfg(test)]
mod tests;
