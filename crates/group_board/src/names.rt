// Lists of names, and what members tell each other.
ghost use Rattle.std.specs.Prelude.{◌≡◌, ◌<◌, [], ◌∷◌, ◌++◌, length, IfOk};

use fs_model::Memory;
use log_entry::entry::EntryName;
use std::alloc::Global;
use std::marker::Model;

/// Names in order, with room for a number of them that is fixed when the list is made. No call but
/// `with_room` takes memory.
#[derive(Drop)]
pub struct Names {
    names: Vec<EntryName>,
    room: u64,
}

impl Model for Names {
    ghost use Rattle.std.specs.Prelude.{◌≤◌, vec_len, vec_capacity};
    ghost use Rattle.group_board.specs.Names.{NameList};

    ghost Value = { NameList };

    ghost view = { λ a. record { names = a.names.items; room = a.room } };

    ghost invariant = { λ a. (vec_len a.names ≤ a.room) × (a.room ≤ vec_capacity a.names) };
}

impl Names {
    /// An empty list with room for so many names.
    pub fn with_room(alloc: Global, most: u64) -> Result<Names, Memory>
        ensures empty { IfOk result (λ n. n.names ≡ []) }
        ensures room { IfOk result (λ n. n.room ≡ most) }
    {
        let names = Vec::with_capacity(alloc, most as usize)?;
        Ok(Names { names, room: most })
    }

    /// Appends a name. It takes no memory.
    pub fn push(&mut self, name: EntryName)
        requires { length self.old.names < self.old.room }
        ensures names { self.new.names ≡ self.old.names ++ name ∷ [] }
        ensures room { self.new.room ≡ self.old.room }
    {
        self.names.push(name).unwrap();
    }

    /// A copy with no more room than names.
    pub fn copy(&self, alloc: Global) -> Result<Names, Memory>
        ensures { IfOk result (λ n. n.names ≡ self.now.names) }
    {
        let names = Vec::from_slice(alloc, self.names.as_slice())?;
        let room = names.len() as u64;
        Ok(Names { names, room })
    }

    /// The names in order.
    pub fn names(&self) -> &[EntryName]
        ensures { result.now ≡ self.now.names }
    {
        self.names.as_slice()
    }
}

/// What one member tells another.
#[derive(Drop)]
pub struct Notices {
    /// Entries in the receiver's log that are dead, by their owner, the sender.
    pub dead: Names,
    /// Entries of the receiver's keys that vanished from the sender's log.
    pub gone: Names,
}

impl Notices {
    ghost use Rattle.std.specs.Prelude.{◌≡◌, IfOk};
    ghost use Rattle.group_board.specs.Mailing.{notices_of};

    /// A copy.
    pub fn copy(&self, alloc: Global) -> Result<Notices, Memory>
        ensures { IfOk result (λ n. notices_of n ≡ notices_of self.now) }
    {
        let dead = self.dead.copy(alloc)?;
        let gone = self.gone.copy(alloc)?;
        Ok(Notices { dead, gone })
    }
}
