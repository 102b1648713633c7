// The laws of the room rule.
ghost use Rattle.std.specs.Prelude.{◌≡◌, ℕ, ◌+◌, ◌*◌, ◌≤◌, ◌<◌, false, true};
ghost use Rattle.pm_region.specs.Words.{lines_for};
ghost use Rattle.log_entry.specs.declared.entry_limits.TheConstants.{MOST_ENTRIES};
ghost use Rattle.core_room.specs.Lengths.{lines_to_copy};
ghost use Rattle.core_room.specs.CleaningRoom.{copying, MayBegin, needs_fresh, with_open, lines_after, copied, with_chunk};
ghost use Rattle.core_room.specs.declared.supply.Supply.{Supply};
ghost use Rattle.core_room.specs.RoomRule.{pledged, KeepsRoom, KeepsRoomAtCleaning, lacks_room, may_cut, pledging, without_chunk};

/// A change that is not refused leaves the rule kept when its lines are pledged.
pub fn every_pledge()
    ensures { (s : Supply) (need : ℕ) → lacks_room s need ≡ false → KeepsRoom (pledging s need) }
{}

/// A chunk that may be cut leaves the rule kept when it is cut and the lines of its change are pledged.
pub fn every_cut()
    ensures { (s : Supply) (need : ℕ) → may_cut s need ≡ true
        → KeepsRoom (without_chunk (pledging s need)) }
{}

/// What a cleaning does to the room rule. From its beginning to its first copy the weaker rule is kept; the chunk of the
/// first copy has room for all that is promised then, and so it stays: no later copy opens a chunk or lacks room. What
/// is told dead meanwhile makes what is to be copied less.
pub fn every_cleaning()
    ensures begins { (s : Supply) (payload lines : ℕ) → KeepsRoom s → MayBegin s payload lines
        → KeepsRoomAtCleaning (copying s lines) }
    ensures fresh { (s : Supply) → KeepsRoomAtCleaning s → s.free_chunks ≤ 1
        → needs_fresh s ≡ true → 1 ≤ s.free_chunks }
    ensures first { (s : Supply) (payload : ℕ) → s.own_lines ≤ 40 → 60 ≤ payload
        → 3 * s.rest_lines ≤ payload
        → pledged (with_open s payload (needs_fresh s))
        ≤ (with_open s payload (needs_fresh s)).open_lines }
    ensures later { (s : Supply) → KeepsRoom s → s.free_chunks ≤ 1 → pledged s ≤ s.open_lines }
    ensures batch { (count words n w : ℕ) → 0 < n → n ≤ MOST_ENTRIES → n ≤ count → w ≤ words
        → lines_for w + lines_after count words n w ≤ lines_to_copy count words }
    ensures copied { (s : Supply) (lines left : ℕ) → pledged s ≤ s.open_lines
        → lines + left ≤ s.rest_lines → KeepsRoom (copied s lines left) }
    ensures doomed { (s : Supply) → KeepsRoomAtCleaning s → s.free_chunks ≤ 1
        → KeepsRoom (copying s 0) }
    ensures cleared { (s : Supply) → KeepsRoom s → KeepsRoom (with_chunk s) }
    ensures less { (s : Supply) (lines : ℕ) → lines ≤ s.rest_lines
        → KeepsRoom s → KeepsRoom (copying s lines) }
    ensures less_first { (s : Supply) (lines : ℕ) → lines ≤ s.rest_lines
        → KeepsRoomAtCleaning s → KeepsRoomAtCleaning (copying s lines) }
    ensures fewer { (count words less_count less_words : ℕ) → less_count ≤ count
        → less_words ≤ words → lines_to_copy less_count less_words ≤ lines_to_copy count words }
{}
