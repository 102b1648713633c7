// Which requests a load makes.
ghost use Rattle.std.specs.Prelude.{◌≤◌};

/// The most requests of a load, as of an input.
pub const MOST_LOAD_REQUESTS: u64 = 1_000_000;

/// Which requests a load makes: so many, one or more and no more than the most, from a first number on.
#[derive(Clone, Copy)]
pub struct LoadSize {
    pub start: u64,
    pub count: u64,
    ghost some: { 1 ≤ count },
    ghost few: { count ≤ 1000000 },
}

impl LoadSize {
    ghost use Rattle.std.specs.Prelude.{◌≡◌, option_map};
    ghost use Rattle.flatstore_commands.specs.Commands.{load_within};

    /// So many requests from this number on, where they are neither none nor too many.
    pub fn of(start: u64, count: u64) -> Option<LoadSize>
        ensures { option_map (λ l. (l.start, l.count)) result ≡ load_within start count }
    {
        if count < 1 || count > MOST_LOAD_REQUESTS {
            return None;
        }
        Some(LoadSize { start, count })
    }
}
