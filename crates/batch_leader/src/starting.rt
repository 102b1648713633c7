// Becoming the leader.
ghost use Rattle.std.specs.Prelude.{◌≡◌, ◌≢◌, ◌∷◌, ◌<◌, ℕ, false, [], IfOk, IfErr, IfSome, MatchResult, Option};
ghost use Rattle.group_laws.specs.Places.{members};
ghost use Rattle.group_laws.specs.Runs as runs;
ghost use Rattle.group_laws.specs.declared.types.Seen.TheVariants as loads;
ghost use Rattle.group_board.specs.Conditions.{MayLock};
ghost use Rattle.group_board.specs.Views.{after_lock, after_find};
ghost use Rattle.group_board.specs.Told.{Makes};
ghost use Rattle.group_board.specs.Trails.{step_with};
ghost use Rattle.batch_leader.specs.Leading.{Collects, taken_by};

use crate::batch_buffer::BatchBuffer;
use crate::changes::Changes;
use crate::states::{Collecting, NotLeading};
use group_board::Board;

/// Tries to become the leader. It answers `NotLeading` only where it found that another member is, with that member.
/// A member that isn't broken has nothing in flight then.
pub fn lead<B: Board>(board: &mut B, buffer: BatchBuffer) -> Result<Collecting, NotLeading>
    requires lock { MayLock (B.seat board.old).place (B.seat board.old).number (B.view board.old) }
    requires landed { (B.view board.old).broken ≡ false → (B.view board.old).flying ≡ [] }
    ensures seat { B.seat board.new ≡ B.seat board.old }
    ensures view { MatchResult result
        (λ _. B.view board.new ≡ after_lock (B.view board.old))
        (λ busy. B.view board.new ≡ after_find (loads.Holder busy.holder) (B.view board.old)) }
    ensures collects { IfOk result (λ c. Collects (B.seat board.old) (B.view board.new) c) }
    ensures starts { IfOk result (λ c. (taken_by c ≡ []) × (c.at ≡ 0) × (c.over ≡ false)) }
    ensures other { IfErr result (λ busy. busy.holder ≢ (B.seat board.old).number) }
    ensures holder { IfErr result (λ busy. busy.holder < members (B.seat board.old).place) }
    ensures found { IfSome (B.whole board.old) (λ w. MatchResult result
        (λ _. w.holder ≡ Option.None) (λ busy. w.holder ≡ Option.Some busy.holder)) }
    ensures step { B.trail board.new
        ≡ step_with runs.Kind.Lock (B.view board.new) ∷ B.trail board.old }
    ensures whole { Makes (B.whole board.old) (B.seat board.old).number
        runs.Kind.Lock (B.whole board.new) (B.view board.new) }
{
    match board.try_lock() {
        Ok(()) => Ok(Collecting {
            changes: Changes::none(buffer),
            at: 0,
            fresh: false,
            own_lines: 0,
            over: false,
        }),
        Err(busy) => Err(NotLeading {
            buffer,
            holder: busy.holder,
        }),
    }
}
