// How a group opens on a region's words, where its number and the words are known only when the program runs.
ghost use Rattle.std.specs.Prelude.{ℕ, List, []};

use group_board::Opening;
use std::marker::{Brand, PhantomData};

/// A number that is known only when the program runs.
pub trait Numbered {
    ghost number: { ℕ };
}

impl Numbered for Brand {
    ghost number = { 0 };
}

/// The group with a number, of what an opening says.
pub struct Of<O, N> {
    marker: PhantomData<(O, N)>,
}

impl<O: Opening, N: Numbered> Opening for Of<O, N> {
    ghost words = { O.words };

    ghost bytes = { O.bytes };

    ghost group = { N.number };
}

/// The words of a region and its length in bytes, which are known only when the program runs.
pub trait FoundRegion {
    ghost words: { List ℕ };

    ghost bytes: { ℕ };
}

impl FoundRegion for Brand {
    ghost words = { [] };

    ghost bytes = { 0 };
}

/// The opening of a group on them.
pub struct On<F> {
    marker: PhantomData<F>,
}

impl<F: FoundRegion> Opening for On<F> {
    ghost words = { F.words };

    ghost bytes = { F.bytes };

    ghost group = { 0 };
}
