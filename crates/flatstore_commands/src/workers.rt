// How many workers an audit has.
ghost use Rattle.std.specs.Prelude.{◌≤◌};

/// The most workers of an audit.
pub const MOST_WORKERS: u64 = 16;

/// How many workers an audit has: one or more, and no more than the most.
#[derive(Clone, Copy)]
pub struct Workers {
    pub count: u32,
    ghost some: { 1 ≤ count },
    ghost few: { count ≤ 16 },
}

impl Workers {
    ghost use Rattle.std.specs.Prelude.{◌≡◌, option_map};
    ghost use Rattle.flatstore_commands.specs.Commands.{workers_within};

    /// So many workers, where they are neither none nor too many.
    pub fn of(count: u64) -> Option<Workers>
        ensures { option_map (λ w. w.count) result ≡ workers_within count }
    {
        if count < 1 || count > MOST_WORKERS {
            return None;
        }
        Some(Workers {
            count: count as u32,
        })
    }
}
