// Pages that are copied from shared bytes when they are to be stored to.
ghost use Rattle.std.specs.Prelude.{◌≡◌, ℕ, ◌+◌, ◌*◌, ◌%◌, ◌≤◌, ◌<◌, length, slice_index};
ghost use Rattle.pm_region.specs.declared.region_sizes.TheConstants.{LINE_BYTES, MOST_BYTES};
ghost use Rattle.region_file.specs.declared.page_size.TheConstants.{PAGE};
ghost use Rattle.region_file.specs.Slots.{slot_at};
ghost use Rattle.region_file.specs.Pages.{byte_in, byte_under, stored_byte};

use crate::byte_room::put_over;
use crate::page_size::PAGE;
use crate::pages::{Pages, zeros_at};
use crate::shared_bytes::SharedBytes;

/// Some bytes from a place on: of the own page, where it is stored, and else of what stands under it. They end where a line
/// does.
pub fn own_or_under<'a>(own: &'a Pages, base: &'a Option<SharedBytes>, at: usize) -> &'a [u8]
    requires { at ≤ MOST_BYTES }
    ensures some { 0 < length result.now }
    ensures end { (at + length result.now) % LINE_BYTES ≡ 0 }
    ensures bytes { (j : ℕ) → j < length result.now → at % PAGE + j < PAGE
        → slice_index result.now j ≡ byte_in own.now base.now (at + j) }
{
    if own.has(at) {
        own.rest(at)
    } else {
        under(base, at)
    }
}

/// How many bytes are zeros from a place on, in its page, as far as is told without a look at them.
pub fn blank(own: &Pages, base: &Option<SharedBytes>, at: usize) -> usize
    requires { at ≤ MOST_BYTES }
    ensures page { at % PAGE + result ≤ PAGE }
    ensures zeros { (j : ℕ) → j < result → byte_in own.now base.now (at + j) ≡ 0 }
{
    let left = own.blank(at);
    match base {
        None => left,
        Some(base) => left.min(base.blank(at)),
    }
}

// Some of the bytes that stand under a page, which end where a line does.
fn under<'a>(base: &'a Option<SharedBytes>, at: usize) -> &'a [u8]
    requires { at ≤ 2 * MOST_BYTES }
    ensures some { 0 < length result.now }
    ensures end { (at + length result.now) % LINE_BYTES ≡ 0 }
    ensures bytes { (j : ℕ) → j < length result.now
        → slice_index result.now j ≡ byte_under base.now (at + j) }
{
    match base {
        None => zeros_at(at),
        Some(base) => base.rest(at),
    }
}

/// Makes the page with the byte at this place an own one. It takes no memory. It stands before each store, so it is always
/// inlined.
#[inline(always)]
pub fn make_own(own: &mut Pages, base: &Option<SharedBytes>, at: usize)
    requires within { at < PAGE * length own.old.slots.items }
    requires low { at ≤ MOST_BYTES }
    ensures count { length own.new.slots.items ≡ length own.old.slots.items }
    ensures own { 0 < slot_at own.new.slots.items at }
    ensures others { (k : ℕ) → 0 < slot_at own.old.slots.items k → 0 < slot_at own.new.slots.items k }
    ensures bytes { (k : ℕ) → byte_in own.new base.now k ≡ byte_in own.old base.now k }
{
    if !own.has(at) {
        copy_page(own, base, at / PAGE);
    }
}

// Never inlined: a page's room on the stack is for the first store in a page alone.
#[inline(never)]
fn copy_page(own: &mut Pages, base: &Option<SharedBytes>, page: usize)
    requires within { page < length own.old.slots.items }
    requires none { slice_index own.old.slots.items page ≡ 0 }
    requires low { PAGE * page ≤ MOST_BYTES }
    ensures count { length own.new.slots.items ≡ length own.old.slots.items }
    ensures own { 0 < slice_index own.new.slots.items page }
    ensures others { (k : ℕ) → 0 < slot_at own.old.slots.items k → 0 < slot_at own.new.slots.items k }
    ensures bytes { (k : ℕ) → byte_in own.new base.now k ≡ byte_in own.old base.now k }
{
    let mut bytes = [0u8; PAGE];
    copy_under(base, PAGE * page, &mut bytes);
    own.store(page, &bytes);
}

// Copies the bytes that stand under pages from a place on into the room for them.
fn copy_under(base: &Option<SharedBytes>, from: usize, room: &mut [u8])
    requires { from + length room.old ≤ 2 * MOST_BYTES }
    ensures count { length room.new ≡ length room.old }
    ensures bytes { (j : ℕ) → j < length room.new → slice_index room.new j
        ≡ byte_under base.now (from + j) }
{
    let mut done = 0;
    while done < room.len() {
        let part = under(base, from + done);
        let count = part.len().min(room.len() - done);
        put_over(room, done, &part[..count]);
        done += count;
    }
}

/// Makes every page an own one, where anything stands under them.
pub fn stand_alone(own: &mut Pages, base: &Option<SharedBytes>)
    requires { PAGE * length own.old.slots.items ≤ MOST_BYTES + PAGE }
    ensures count { length own.new.slots.items ≡ length own.old.slots.items }
    ensures bytes { (k : ℕ) → byte_in own.new base.now k ≡ byte_in own.old base.now k }
    ensures alone { (k : ℕ) → k < PAGE * length own.old.slots.items → stored_byte own.new k
        ≡ byte_in own.old base.now k }
{
    if base.is_some() {
        make_all_own(own, base);
    }
}

// Makes every page an own one.
fn make_all_own(own: &mut Pages, base: &Option<SharedBytes>)
    requires { PAGE * length own.old.slots.items ≤ MOST_BYTES + PAGE }
    ensures count { length own.new.slots.items ≡ length own.old.slots.items }
    ensures own { (k : ℕ) → k < PAGE * length own.old.slots.items → 0 < slot_at own.new.slots.items k }
    ensures bytes { (k : ℕ) → byte_in own.new base.now k ≡ byte_in own.old base.now k }
{
    for page in 0..own.count() as usize {
        make_own(own, base, PAGE * page);
    }
}
