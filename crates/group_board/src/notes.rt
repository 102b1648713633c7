// A private table of one word, whose rule asks nothing. The view of its one seat is the journal of a board: no
// program reads it, and each step of a call writes one note, by one load.
ghost use Rattle.std.specs.Prelude.{◌≡◌, ℕ, ◌<◌, []};
ghost use Rattle.group_board.specs.Journals.{begun, noted, note_of};
ghost use Rattle.group_board.specs.declared.board_journal.Act.TheVariants.{Unlock};
ghost use Rattle.group_board.specs.declared.board_journal.Note.{Note};

use crate::board_journal::BoardJournal;
use crate::opening::Opening;
use atomic_table::{Play, Seat, Shared, TableRule};
use std::marker::{Brand, PhantomData};

/// The rule that asks nothing.
pub struct Asks;

impl TableRule<u8, BoardJournal, ()> for Asks {
    ghost holds = { λ _ _. Unit {0} };

    ghost first = { λ _. begun 0 [] };
}

/// The note that a call writes. The proof of the call picks it.
pub trait Wish {
    ghost wish: { Note };
}

impl Wish for Brand {
    ghost wish = { note_of 0 Unlock };
}

/// The load that writes a note.
pub struct Writes<W> {
    marker: PhantomData<W>,
}

impl<W: Wish> Play<u8, BoardJournal> for Writes<W> {
    ghost then = { λ st m r n. n ≡ (noted W.wish m.0, m.1) };
}

/// The load that begins the journal.
pub struct Begins<O> {
    marker: PhantomData<O>,
}

impl<O: Opening> Play<u8, BoardJournal> for Begins<O> {
    ghost then = { λ st m r n. n ≡ (begun O.group O.words, m.1) };
}

/// The table of one word at which notes are written. It asks nothing.
pub type Steps = Shared<u8, BoardJournal, (), Asks>;

/// The seat there, whose view is the journal.
pub type Keeper = Seat<u8, BoardJournal>;

/// Writes a note. What it is about is passed, since a pick sees the call's arguments alone.
pub fn note<W: Wish, T>(table: &Steps, seat: &mut Keeper, _about: &T)
    requires { (seat.old.table_id ≡ table.now.table_id) × (0 < table.now.table_id.words) }
    ensures { (seat.new.table_id ≡ seat.old.table_id)
        × (seat.new.me.0 ≡ noted W.wish seat.old.me.0) }
{
    table.load::<Writes<W>>(seat, 0);
}
