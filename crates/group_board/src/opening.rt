// What a board opens on, which no code holds.
ghost use Rattle.std.specs.Prelude.{ℕ, List};

/// It has no calls. Its one meaning is the image on which a group opens: the words of a region by number, the
/// region's length in bytes, and the number of the group in the region's layout.
pub trait Opening {
    ghost words: { List ℕ };

    ghost bytes: { ℕ };

    ghost group: { ℕ };
}
