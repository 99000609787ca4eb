ghost use Rattle.std.specs.Prelude.{◌≡◌, ◌<◌, Some, length, slice_get};

/// The element at a place of the list.
pub fn at<T: Copy>(xs: &[T], place: usize) -> T
    requires { place < length xs.now }
    ensures { slice_get xs.now place ≡ Some result }
{
    xs[place]
}
