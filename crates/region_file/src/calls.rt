// The calls of the system that were made on an open file. Only clauses read them.
ghost use Rattle.std.specs.Prelude.{◌≡◌, List, [], ◌∷◌};
ghost use Rattle.std.specs.Borrow.{ftrue};
ghost use Rattle.region_file.specs.Calls.{Call, call_of};

use std::marker::{Model, PhantomData};

/// `made` are the calls, the newest first. No memory holds them.
#[derive(Drop)]
pub struct Calls {
    marker: PhantomData<u8>,
    pub ghost made: { List Call },
}

impl Model for Calls {
    ghost also_owns = { λ _. ftrue };
}

// It owns nothing.
unsafe impl Send for Calls {}

impl Calls {
    /// No calls.
    pub fn none() -> Calls
        ensures { result.made ≡ [] }
    {
        Calls {
            marker: PhantomData,
        }
    }

    /// Adds a call: `numbers` are its kind and the place in the file that it begins at.
    pub fn note(&mut self, _numbers: &[u64], _bytes: &[u8])
        ensures { self.new.made ≡ call_of _numbers.now _bytes.now ∷ self.old.made }
    {}
}
