//! Bytes of files as they stand.
ghost use Rattle.std.specs.Prelude.{◌≡◌, IfOk};
ghost use Rattle.sx_extent.specs.Ranges.{cut};

use sx_extent::{Ranges, View};
use sx_memory::NoMemory;

/// The bytes of an interval as they are now, as far as they lie in the file.
pub fn view_within(ranges: &Ranges, from: u64, end: u64) -> Result<View, NoMemory>
    ensures { IfOk result (λ view. view ≡ cut ranges.now from end) }
{
    let length = ranges.length();
    if end <= from {
        return ranges.view(0, 0);
    }
    if length <= from {
        return ranges.view(length, length);
    }
    if end <= length {
        return ranges.view(from, end);
    }
    ranges.view(from, length)
}
