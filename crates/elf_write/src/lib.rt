//! AArch64 programs as images, their memory, and the ELF files that hold them.
//! Others rest on `write_elf` by `IsFileOf`, whose bytes are exactly those of `image_file` and are read back as the image, on `kept_segments` and `code_address`, and on `Image` as a `StartMemory`.
//! Source: System V gABI, chapters 4 and 5; the layout of an image is this project's own.
#![tactic(auto)]

mod image;
mod keep;
mod memory;
mod parts;
mod places;
mod tables;
mod write;

pub use image::{Image, ImageSegment};
pub use keep::{code_address, kept_segments};
pub use write::write_elf;

#[cfg(test)]
mod tests;
