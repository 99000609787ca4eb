ghost use Rattle.std.specs.Prelude.{◌≡◌, ◌+◌, ◌*◌, ◌<◌, ◌↔◌, ℕ, List as Sequence, map, length, IsTrue, IfOk, IfErr, Ok, slice_get, MatchOption};
ghost use Rattle.std.specs.List.{AllByRecursion};
ghost use Rattle.ev_graph.specs.declared.execution.Stack.{Stack as AnyStack};
ghost use Rattle.ev_graph.specs.Memory.{Part, Apart, IsStack, IsOffStack};
ghost use Rattle.elf_write.specs.declared.image.ImageSegment.{ImageSegment as AnySegment};
ghost use Rattle.elf_write.specs.Image.{image_part, image_parts};
ghost use Rattle.arm_replay.specs.Layouts.{PlacedBehind, ArePlaced, IsFirstUnplaced};

use elf_write::{Image, ImageSegment};
use ev_graph::Stack;

/// The highest end of a stack.
const HIGHEST: u64 = 1 << 47;

/// Whether the addresses from `low` to below `high` are none of the stack's.
fn is_apart(low: u128, high: u128, stack: &Stack) -> bool
    ensures { IsTrue result ↔ Apart low high stack.now.lo stack.now.hi }
{
    let from = low.max(u128::from(stack.lo));
    let to = high.min(u128::from(stack.hi));
    to <= from
}

/// Whether a stack is filled, cut at multiples of 16, and in the lower half of the addresses.
fn is_stack(stack: &Stack) -> bool
    ensures { IsTrue result ↔ IsStack stack.now }
{
    stack.lo < stack.hi && stack.lo % 16 == 0 && stack.hi % 16 == 0 && stack.hi <= HIGHEST
}

/// Whether a stack has no byte in common with these segments.
fn is_off_segments(segments: &[ImageSegment], stack: &Stack) -> bool
    ensures { IsTrue result ↔ AllByRecursion (λ (segment : AnySegment). Apart segment.address (segment.address + segment.size) stack.now.lo stack.now.hi) segments.now }
{
    for segment in segments {
        let low = u128::from(segment.address);
        if !is_apart(low, low + u128::from(segment.size), stack) {
            return false;
        }
    }
    true
}

/// Whether a stack has no byte in common with the code.
fn is_off_code(image: &Image, stack: &Stack) -> bool
    ensures { IsTrue result ↔ Apart image.now.code_address (image.now.code_address + 4 * length image.now.words) stack.now.lo stack.now.hi }
{
    let low = u128::from(image.code_address);
    let size = 4 * image.words.as_slice().len() as u128;
    is_apart(low, low + size, stack)
}

/// Whether a stack has no byte in common with those before it.
fn is_off_stacks(earlier: &[Stack], stack: &Stack) -> bool
    ensures { IsTrue result ↔ AllByRecursion (λ (other : AnyStack). IsOffStack other stack.now) earlier.now }
{
    for other in earlier {
        if !is_apart(u128::from(other.lo), u128::from(other.hi), stack) {
            return false;
        }
    }
    true
}

/// Whether a stack has no byte in common with the image.
fn is_off_image(image: &Image, stack: &Stack) -> bool
    ensures { IsTrue result ↔ AllByRecursion (λ (part : Part). Apart part.address (part.address + part.size) stack.now.lo stack.now.hi) (image_parts image.now) }
{
    is_off_segments(image.segments.as_slice(), stack) && is_off_code(image, stack)
}

/// Whether a stack is well placed, and has no byte in common with the image or an earlier stack.
fn is_placed(image: &Image, earlier: &[Stack], stack: &Stack) -> bool
    ensures { IsTrue result ↔ PlacedBehind (image_parts image.now) earlier.now stack.now }
{
    if !is_stack(stack) {
        return false;
    }
    if !is_off_image(image, stack) {
        return false;
    }
    is_off_stacks(earlier, stack)
}

/// The first stack that is not well placed, or has a byte in common with the image or an earlier one.
pub(crate) fn first_unplaced(image: &Image, stacks: &[Stack]) -> Option<usize>
    ensures { MatchOption result (ArePlaced (image_parts image.now) stacks.now (length stacks.now)) (IsFirstUnplaced (image_parts image.now) stacks.now) }
{
    for (k, stack) in stacks.iter().enumerate() {
        if !is_placed(image, &stacks[..k], stack) {
            return Some(k);
        }
    }
    None
}
