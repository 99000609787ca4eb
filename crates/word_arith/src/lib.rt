//! The arithmetic of words that both machines share: bits, parts, two's complement, turns and masks, as definitions with their lemmas.
//! Others rest on the definitions of specs/, on the lemmas of proofs/CallerLemmas, and on the laws that the functions here ensure.
//! Source: Intel SDM volume 1, chapter 4 (numeric data types); Arm ARM, C6.2 and the pseudocode functions UInt, SInt and ROR.
#![tactic(auto)]

ghost use Rattle.std.specs.Prelude.{ℕ, ◌^◌, ◌<◌, ◌≤◌};
ghost use Rattle.word_arith.specs.Laws.{TwosComplement, Extends, IsField, Replaces, Turns};

/// The law of two's complement: words and the numbers that they mean correspond one to one. It computes nothing.
#[tactic(auto, using(crate::proofs::LawLemmas::twos_complement_holds))]
pub fn twos_complement()
    ensures { (W : ℕ) → 0 < W → TwosComplement W }
{}

/// The law of extension: it means the same, the word's bits stay, and each new bit is its top bit. It computes nothing.
#[tactic(auto, using(crate::proofs::LawLemmas::extends_holds))]
pub fn extension()
    ensures { (V W a : ℕ) → 0 < W → W ≤ V → a < 2 ^ W → Extends V W a }
{}

/// The law of fields: a field has just the bits that it names. It computes nothing.
#[tactic(auto, using(crate::proofs::LawLemmas::is_field_holds))]
pub fn fields()
    ensures { (lo len n : ℕ) → IsField lo len n }
{}

/// The law of insertion: the bits of the field are the new ones, and all others stay. It computes nothing.
#[tactic(auto, using(crate::proofs::LawLemmas::replaces_holds))]
pub fn insertion()
    ensures { (lo len n v : ℕ) → v < 2 ^ len → Replaces lo len n v }
{}

/// The law of turns: bit i goes to bit i + k modulo the width. It computes nothing.
#[tactic(auto, using(crate::proofs::LawLemmas::turns_hold))]
pub fn turning()
    ensures { (W a k : ℕ) → a < 2 ^ W → k ≤ W → Turns W a k }
{}
