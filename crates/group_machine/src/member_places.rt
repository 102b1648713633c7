// Where members and blocks stand.
ghost use Rattle.std.specs.Prelude.{◌≡◌, ◌+◌, ◌≤◌, ◌<◌, ◌^◌, ◌/◌, ◌↔◌, IsTrue};
ghost use Rattle.group_laws.specs.Places.{owner, first_unit, units, LiesIn, Apart};

use chunk_map::layout_sizes::{FIRST_UNIT, UNIT_BYTES};
use chunk_map::layouts::Layout;
use pm_region::WORD_BYTES;

/// The member that owns a key, or the number of members where another group has it.
#[tactic(auto, unfolding(group_laws::specs::Places::owner))]
pub fn owner_of(layout: &Layout, group: u32, key: u64) -> u32
    ensures { result ≡ owner (record { layout = layout.now; group = group }) key }
{
    let geometry = layout.geometry();
    let core = (key % geometry.cores as u64) as u32;
    if core / geometry.group == group {
        core % geometry.group
    } else {
        geometry.group
    }
}

/// The first unit of 256 bytes of a member's part, counted from the region's start. Of the number of members
/// it is the one behind the last part.
fn first_unit(layout: &Layout, group: u32, member: u64) -> u128
    requires { member ≤ 2 ^ 32 }
    ensures { result ≡ first_unit (record { layout = layout.now; group = group }) member }
{
    let geometry = layout.geometry();
    let core = group as u128 * geometry.group as u128 + member as u128;
    FIRST_UNIT as u128
        + core * (geometry.chunks as u128 * (geometry.chunk_bytes / UNIT_BYTES) as u128)
}

/// Whether a run of units lies in a member's part.
pub fn lies_in(layout: &Layout, group: u32, member: u32, at: u64, units: u64) -> bool
    ensures { IsTrue result ↔ LiesIn (record { layout = layout.now; group = group }) member at
        units }
{
    let first = first_unit(layout, group, member as u64);
    let end = first_unit(layout, group, member as u64 + 1);
    first <= at as u128 && at as u128 + units as u128 <= end
}

/// Whether two runs of units share none.
pub fn is_apart(first: u64, units: u64, other: u64, other_units: u64) -> bool
    ensures { IsTrue result ↔ Apart first units other other_units }
{
    first as u128 + units as u128 <= other as u128
        || other as u128 + other_units as u128 <= first as u128
}

/// How many units the block of a value of this length has. The least class of blocks that has room for the
/// length and the bytes is taken.
#[tactic(auto, unfolding(group_laws::specs::Places::units))]
pub fn units_of(length: usize) -> u64
    requires { length < 2 ^ 63 }
    ensures { result ≡ units length }
{
    let bytes = length as u64 + WORD_BYTES;
    if bytes <= 2 * UNIT_BYTES {
        2
    } else if bytes <= 4 * UNIT_BYTES {
        4
    } else if bytes <= 8 * UNIT_BYTES {
        8
    } else if bytes <= 16 * UNIT_BYTES {
        16
    } else if bytes <= 32 * UNIT_BYTES {
        32
    } else if bytes <= 64 * UNIT_BYTES {
        64
    } else if bytes <= 128 * UNIT_BYTES {
        128
    } else if bytes <= 256 * UNIT_BYTES {
        256
    } else if bytes <= 512 * UNIT_BYTES {
        512
    } else if bytes <= 1024 * UNIT_BYTES {
        1024
    } else if bytes <= 2048 * UNIT_BYTES {
        2048
    } else if bytes <= 4096 * UNIT_BYTES {
        4096
    } else {
        8192
    }
}
