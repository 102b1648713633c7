// The dead names of a core's own log, which it is told without mail.
ghost use Rattle.std.specs.Prelude.{◌≡◌, ◌≤◌, length};
ghost use Rattle.core_index.specs.Index.{all_untold};
ghost use Rattle.core_worker.specs.Hearing.{HearsAll};
ghost use Rattle.core_worker.specs.StandingTies.{HearsOwn};

use core_index::CoreIndex;
use log_standing::Standing;

// Tells the core of its own dead entries in its own log. No other core hears of them.
pub(crate) fn hear_own(index: &mut CoreIndex, standing: &mut Standing, core: u32)
    ensures hears { HearsAll core index.old index.new }
    ensures own { HearsOwn core index.old standing.old standing.new }
    ensures count { length standing.new.entries ≡ length standing.old.entries }
    ensures untold { all_untold index.new ≤ all_untold index.old }
{
    while let Some(name) = index.next_notice(core) {
        standing.kill(name);
    }
}
