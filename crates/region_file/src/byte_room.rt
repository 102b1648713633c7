// Room that is filled with byte strings.
ghost use Rattle.std.specs.Prelude.{◌≡◌, ◌⊎◌, ℕ, ◌+◌, ◌≤◌, ◌<◌, ◌++◌, length, slice_index, vec_capacity};

/// Puts bytes behind those before them, for which there is room.
pub fn put_behind(room: &mut Vec<u8>, bytes: &[u8])
    requires { length room.old.items + length bytes.now ≤ vec_capacity room.old }
    ensures items { room.new.items ≡ room.old.items ++ bytes.now }
    ensures room { vec_capacity room.old ≤ vec_capacity room.new }
{
    match room.extend_from_slice(bytes) {
        Ok(()) => {}
        Err(_) => unreachable!(),
    }
}

/// Puts bytes in the place of those that stand from a place on.
pub fn put_over(room: &mut [u8], low: usize, bytes: &[u8])
    requires { low + length bytes.now ≤ length room.old }
    ensures count { length room.new ≡ length room.old }
    ensures inner { (j : ℕ) → j < length bytes.now → slice_index room.new (low + j)
        ≡ slice_index bytes.now j }
    ensures outer { (k : ℕ) → (k < low) ⊎ (low + length bytes.now ≤ k) → slice_index room.new k
        ≡ slice_index room.old k }
{
    room[low..low + bytes.len()].copy_from_slice(bytes);
}
