// What the part of a log is in images while the log is written, for callers whose promises speak of the whole part.
ghost use Rattle.std.specs.Prelude.{◌≡◌, ◌⊎◌, ℕ, ◌+◌, ◌≤◌, ◌<◌, List, [], length, None, true, is_some};
ghost use Rattle.std.specs.List.{flat_map};
ghost use Rattle.pm_region.specs.declared.region_sizes.TheConstants.{LINE_WORDS};
ghost use Rattle.pm_region.specs.State.{State, IsTelling, cell_now, During};
ghost use Rattle.pm_region.specs.Words.{KeepsOutside, Surely, lines_for};
ghost use Rattle.chunk_map.specs.Layouts.{chunk_words};
ghost use Rattle.log_entry.specs.declared.entry.Entry.{Entry};
ghost use Rattle.log_entry.specs.Spelling.{words_of};
ghost use Rattle.log_entry.specs.Batches.{IsBatch};
ghost use Rattle.core_log.specs.Chunk.{padded, words_now, HasOrLacks, FreeOrEmpty, FreeOrLog};
ghost use Rattle.core_log.specs.Log.{LogState, StandsIn, tail_of, tail_in, first_of, open_first, open_tail, room_of, EachInOpen};
ghost use Rattle.core_log.specs.Entries.{AppendedBatch};
ghost use Rattle.core_log.specs.Opening.{EachInChunk};
ghost use Rattle.core_log.specs.PartImages.{EachInPart, GainsSince, LosesSince};

/// While a batch is appended, each image of the part has all of its entries more, or none, beside an image that a
/// crash might leave before. Afterwards each has all of them.
pub fn every_append()
    ensures throughout { (s t : State) (log : LogState) (es : List Entry) (ws : List ℕ)
        → StandsIn s log
        → ws ≡ flat_map words_of es → IsBatch es → lines_for (length ws) ≤ room_of log
        → During s t (KeepsOutside (cell_now s) (open_first log)
        (open_first log + chunk_words log.layout))
        → During s t (EachInOpen log (HasOrLacks (open_first log) (open_tail log)
        (words_now s (open_first log) (open_tail log)) (padded ws)))
        → During s t (EachInPart log (λ image. GainsSince s log [] image
        ⊎ GainsSince s log es image)) }
    ensures after { (s t : State) (log after : LogState) (es : List Entry) (ws : List ℕ)
        → StandsIn s log
        → ws ≡ flat_map words_of es → IsBatch es → lines_for (length ws) ≤ room_of log
        → During s t (KeepsOutside (cell_now s) (open_first log)
        (open_first log + chunk_words log.layout))
        → AppendedBatch s t log after (padded ws)
        → IsTelling t → EachInPart log (GainsSince s log es) (cell_now t) }
{}

/// While a chunk is opened, each image of the part has the entries that it had.
pub fn every_opening()
    ensures { (s t : State) (log : LogState) (chunk : ℕ) → StandsIn s log
        → chunk < log.layout.chunks
        → (IsTelling s → Surely (cell_now s (first_of log chunk)) 0)
        → During s t (KeepsOutside (cell_now s) (first_of log chunk)
        (first_of log chunk + LINE_WORDS))
        → During s t (EachInChunk log chunk (FreeOrEmpty (first_of log chunk)))
        → During s t (EachInPart log (GainsSince s log [])) }
{}

/// While a chunk of the log is made Free, each image of the part has the entries that it had, or those of the other
/// chunks.
pub fn every_freeing()
    ensures { (s t : State) (log : LogState) (chunk : ℕ) → StandsIn s log
        → is_some (tail_of log.chunks chunk) ≡ true
        → During s t (KeepsOutside (cell_now s) (first_of log chunk)
        (first_of log chunk + LINE_WORDS))
        → During s t (EachInChunk log chunk (FreeOrLog (first_of log chunk) (tail_in log chunk)
        (words_now s (first_of log chunk) (tail_in log chunk))))
        → During s t (EachInPart log (λ image. GainsSince s log [] image
        ⊎ LosesSince s log chunk image)) }
{}

/// A log stands while a chunk of the part is written that it doesn't have.
pub fn every_other_chunk()
    ensures { (s t : State) (log : LogState) (chunk : ℕ)
        → (IsTelling s → tail_of log.chunks chunk ≡ None)
        → During s t (KeepsOutside (cell_now s) (first_of log chunk)
        (first_of log chunk + chunk_words log.layout))
        → StandsIn s log → StandsIn t log }
{}
