// A list of words with room that was taken beforehand.
ghost use Rattle.std.specs.Prelude.{◌≡◌, ◌<◌, ◌≤◌, [], ◌∷◌, ◌++◌, length, IfOk};

use fs_model::Memory;
use std::alloc::Global;
use std::marker::Model;

/// Words in order, with room for a number of them that is fixed when the buffer is made. No call but
/// `with_room` takes memory.
#[derive(Drop)]
pub struct WordBuffer {
    words: Vec<u64>,
    room: u64,
}

impl Model for WordBuffer {
    ghost use Rattle.std.specs.Prelude.{◌≤◌, vec_len, vec_capacity};
    ghost use Rattle.log_entry.specs.Buffer.{Buffer};

    ghost Value = { Buffer };

    ghost view = { λ a. record { words = a.words.items; room = a.room } };

    ghost invariant = { λ a. (vec_len a.words ≤ a.room) × (a.room ≤ vec_capacity a.words) };
}

impl WordBuffer {
    /// An empty buffer with room for so many words.
    pub fn with_room(alloc: Global, words: u64) -> Result<WordBuffer, Memory>
        ensures empty { IfOk result (λ b. b.words ≡ []) }
        ensures room { IfOk result (λ b. b.room ≡ words) }
    {
        let list = Vec::with_capacity(alloc, words as usize)?;
        Ok(WordBuffer {
            words: list,
            room: words,
        })
    }

    /// Appends a word. It takes no memory.
    pub fn push(&mut self, word: u64)
        requires { length self.old.words < self.old.room }
        ensures words { self.new.words ≡ self.old.words ++ word ∷ [] }
        ensures room { self.new.room ≡ self.old.room }
    {
        self.words.push(word).unwrap();
    }

    /// The words in order.
    pub fn words(&self) -> &[u64]
        ensures words { result.now ≡ self.now.words }
        ensures within { length self.now.words ≤ self.now.room }
    {
        self.words.as_slice()
    }

    /// Takes all words out. The room stays.
    pub fn clear(&mut self)
        ensures words { self.new.words ≡ [] }
        ensures room { self.new.room ≡ self.old.room }
    {
        self.words.clear();
    }
}
