// The classes of values.
ghost use Rattle.std.specs.Prelude.{◌≡◌, ◌≤◌, true};
ghost use Rattle.chunk_map.specs.Layouts.{has_class};

use chunk_map::layout_sizes::{GREATEST_CLASS, LONGEST_VALUE, SHORTEST_IN_BLOCK};
use store_image::geometry::has_class;

/// The class of the block that a value of this length gets, from the shortest in a block on: the least class whose
/// block holds the value and a word more.
pub fn class_of(length: u64) -> u32
    requires long { SHORTEST_IN_BLOCK ≤ length }
    requires short { length ≤ LONGEST_VALUE }
    ensures { has_class length result ≡ true }
{
    for class in 1..GREATEST_CLASS {
        if has_class(length, class) {
            return class;
        }
    }
    GREATEST_CLASS
}
