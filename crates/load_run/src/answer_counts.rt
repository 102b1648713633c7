// Answers that are counted as replies.
ghost use Rattle.std.specs.Prelude.{◌≡◌, ◌+◌, ◌^◌, ◌<◌, List, [], ◌∷◌, ◌++◌, length, map};
ghost use Rattle.fs_model.specs.declared.model.Reply as replies;
ghost use Rattle.engine_core.specs.Reports.{reply_in};
ghost use Rattle.load_tally.specs.Tallied.{IsWithin, tally_of};

use engine_core::types::Stamped;
use fs_model::Reply;
use fs_text::LoadTally;
use load_tally::add_reply;

// Counts an answer. A request without one is stopped.
fn add_answer(tally: &mut LoadTally, answer: &Option<Stamped>)
    requires within { IsWithin tally.old }
    requires room { tally.old.requests + 1 < 2 ^ 64 }
    ensures counts { (rs : List replies.Reply) → tally.old ≡ tally_of rs []
        → tally.new ≡ tally_of (rs ++ reply_in answer.now ∷ []) [] }
    ensures within { IsWithin tally.new }
    ensures requests { tally.new.requests ≡ tally.old.requests + 1 }
{
    match answer {
        None => add_reply(tally, &Reply::Stopped),
        Some(answer) => add_reply(tally, &answer.reply),
    }
}

/// Counts the next answers, behind those that were counted.
pub fn add_answers(tally: &mut LoadTally, answers: &[Option<Stamped>])
    requires within { IsWithin tally.old }
    requires room { tally.old.requests + length answers.now < 2 ^ 64 }
    ensures counts { (rs : List replies.Reply) → tally.old ≡ tally_of rs []
        → tally.new ≡ tally_of (rs ++ map reply_in answers.now) [] }
    ensures within { IsWithin tally.new }
    ensures requests { tally.new.requests ≡ tally.old.requests + length answers.now }
{
    for answer in answers {
        add_answer(tally, answer);
    }
}
