// A slice written at an index that may be past its end.
ghost use Rattle.std.specs.Prelude.{◌≡◌, slice_set};

// Writes x at an index, where there is such an index. No proof knows what a slice is after a write through
// its `get_mut`, so the index is compared.
pub fn set_at<T: Copy>(xs: &mut [T], at: usize, x: T)
    ensures { xs.new ≡ slice_set xs.old at x }
{
    if at < xs.len() {
        xs[at] = x;
    }
}
