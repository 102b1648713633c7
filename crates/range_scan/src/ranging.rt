// The part of a rising list of keys that a range keeps.
ghost use Rattle.std.specs.Prelude.{◌≡◌};
ghost use Rattle.std.specs.List.{filter};
ghost use Rattle.store_image.specs.Listing.{IsRising};
ghost use Rattle.range_scan.specs.Ranges.{is_within};

use fs_model::Key;

/// The keys from `lo` to `hi`, found by two searches by halves. There are none where `lo` is above `hi`.
pub fn keys_within(keys: &[Key], lo: Key, hi: Key) -> &[Key]
    requires { IsRising keys.now }
    ensures { result.now ≡ filter (is_within lo hi) keys.now }
{
    let end = keys.partition_point(|key| *key <= hi);
    let up_to = &keys[..end];
    let start = up_to.partition_point(|key| *key < lo);
    &up_to[start..]
}
