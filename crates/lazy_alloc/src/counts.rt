// How many blocks of each class are free.
ghost use Rattle.std.specs.Prelude.{◌≡◌, ◌+◌, ◌-◌, ◌^◌, ◌<◌, ◌≤◌, length, slice_index, slice_set};

/// So many free blocks of a class more.
pub fn add_to(counts: &mut Vec<u32>, class: u32, count: u32)
    requires class { class < length counts.old.items }
    requires fits { slice_index counts.old.items class + count < 2 ^ 32 }
    ensures { counts.new.items ≡ slice_set counts.old.items class
        (slice_index counts.old.items class + count) }
{
    counts[class as usize] += count;
}

/// One free block of a class less.
pub fn take_from(counts: &mut Vec<u32>, class: u32)
    requires class { class < length counts.old.items }
    requires some { 1 ≤ slice_index counts.old.items class }
    ensures { counts.new.items ≡ slice_set counts.old.items class
        (slice_index counts.old.items class - 1) }
{
    counts[class as usize] -= 1;
}

/// How many blocks of a class are free.
pub fn count_of(counts: &[u32], class: u32) -> u32
    requires { class < length counts.now }
    ensures { result ≡ slice_index counts.now class }
{
    counts[class as usize]
}
