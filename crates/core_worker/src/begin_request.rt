// Beginning a request: it is refused, answered, or staged as a change.
ghost use Rattle.std.specs.Prelude.{◌≡◌, ◌≢◌, ◌⊎◌, ℕ, ◌+◌, ◌<◌, ◌≤◌, [], ◌∷◌, ◌++◌, length, Option, Some, None, true, false, IfOk, IfErr, OnOk, OnErr};
ghost use Rattle.std.specs.VecDeque.{deque_len, deque_capacity};
ghost use Rattle.pm_region.specs.State.{State, IsTelling};
ghost use Rattle.fs_model.specs.declared.model.Request.TheVariants as requests;
ghost use Rattle.fs_model.specs.Cells.{key_of, answer_to};
ghost use Rattle.log_entry.specs.Spelling.{HasSpelling};
ghost use Rattle.core_index.specs.Index.{room_at, LessRoom};
ghost use Rattle.batch_leader.specs.declared.batch_buffer.BatchBuffer.{BatchBuffer};
ghost use Rattle.core_worker.specs.declared.types.Place.TheVariants as kinds;
ghost use Rattle.core_worker.specs.declared.types.Leading.TheVariants as leads;
ghost use Rattle.core_worker.specs.OwnPlaces.{place_at, is_free, is_busy, IsLowest, Replaces};
ghost use Rattle.core_worker.specs.Supplies.{HasKeptRoom};
ghost use Rattle.core_worker.specs.Plans.{PutsBeside, PutsInBlock, Deletes, may_stage};
ghost use Rattle.core_worker.specs.Refusals.{HasAnswerRoom};
ghost use Rattle.core_worker.specs.Answering.{IsSaid};
ghost use Rattle.core_worker.specs.Beginning.{answer_with, HasFree, StandsAside, KeepsTies, ByEachView, OnlyAnswers, OnlyBegins, TakesChange, StagesChange, Begins, UsesRoom};
ghost use Rattle.core_worker.specs.Serving.{KeepsLine, LeadsNothingYet};
ghost use Rattle.core_worker.specs.Left.{left, staged_left};

use crate::planning::reply_for;
use crate::post_item::place_in;
use crate::types::{Answer, NotAccepted, Place, Plan};
use crate::worker::Worker;
use core_index::Look;
use core_room::Shortage;
use fs_model::{Key, Memory, Reply, Request, Value, Version};
use group_laws::group_sizes::SLOTS;
use log_entry::{Body, Entry};
use pm_region::Region;
use std::alloc::Global;
use std::mem;

// The lowest free place.
fn free_place(places: &Vec<Place>) -> u32
    requires eight { length places.now.items ≡ SLOTS }
    requires some { HasFree places.now.items }
    ensures lowest { IsLowest is_free places.now.items result }
    ensures within { result < SLOTS }
{
    for slot in 0..SLOTS {
        if let Place::Free = place_in(places, slot) {
            return slot;
        }
    }
    unreachable!()
}

// Stages a change in the lowest free place.
fn stage(places: &mut Vec<Place>, number: u64, entry: Entry, value: Value) -> u32
    requires eight { length places.old.items ≡ SLOTS }
    requires some { HasFree places.old.items }
    ensures lowest { IsLowest is_free places.old.items result }
    ensures within { result < SLOTS }
    ensures placed { Replaces places.old.items places.new.items result
        (kinds.Staged number entry value) }
{
    let slot = free_place(places);
    let staged = Place::Staged {
        number,
        entry,
        value,
    };
    let at = &mut places[slot as usize];
    let _free = mem::replace(at, staged);
    slot
}

impl Worker {
    // Fixes an answer.
    pub(crate) fn answer(&mut self, number: u64, reply: Reply, refusal: Option<Shortage>)
        requires room { HasAnswerRoom 1 self.old }
        ensures rest { self.new ≡ record self.old { answers = self.new.answers } }
        ensures answers { self.new.answers.items
            ≡ self.old.answers.items ++ answer_with number reply refusal ∷ [] }
        ensures room { (n : ℕ) → HasAnswerRoom (n + 1) self.old → HasAnswerRoom n self.new }
    {
        let answer = Answer {
            number,
            reply,
            refusal,
        };
        let _kept = self.answers.push_back(answer);
    }

    // Answers a request that is begun. The room for a record of its key is given back, where there is any.
    fn answer_at_once(&mut self, number: u64, key: Key, reply: Reply, refusal: Option<Shortage>)
        requires room { HasAnswerRoom 1 self.old }
        ensures rest { OnlyAnswers self.old self.new }
        ensures less { LessRoom self.old.index self.new.index key }
        ensures answers { self.new.answers.items
            ≡ self.old.answers.items ++ answer_with number reply refusal ∷ [] }
        ensures room { (n : ℕ) → HasAnswerRoom (n + 1) self.old → HasAnswerRoom n self.new }
    {
        self.index.give_back(key);
        self.answer(number, reply, refusal);
    }

    // The answer to a get of a core that runs. A value in a block is read from the region.
    fn found<R: Region>(&self, alloc: Global, region: &R, key: Key) -> Result<Reply, Memory>
        requires tied { StandsAside (R.state region.now) self.now key }
        requires runs { self.now.stopped ≡ false }
        ensures { IfOk result (λ reply. ByEachView (R.state region.now) self.now key
            (λ v. IsSaid (IsTelling (R.state region.now)) (requests.Get key)
            (answer_to (requests.Get key) (v.cell key)) reply)) }
    {
        match self.index.look(key) {
            Look::Unknown => Ok(Reply::Absent),
            Look::Deleted => Ok(Reply::Absent),
            Look::Embedded(bytes) => Ok(Reply::Value(Value::of(Vec::from_slice(alloc, bytes)?))),
            Look::Block(pointer) => {
                let value = self.allocator.read_value(alloc, region, pointer)?;
                Ok(Reply::Value(value))
            }
        }
    }

    // Stages a put of a value that stands beside its key.
    fn stage_beside(&mut self, alloc: Global, number: u64, key: Key, value: Value, version: Version)
        requires may { TakesChange self.old key }
        requires planned { PutsBeside self.old key value version }
        ensures { StagesChange self.old self.new number (requests.Put key value) }
    {
        let entry = Entry {
            key,
            version,
            body: Body::Embedded(value),
        };
        let _slot = stage(&mut self.places, number, entry, Value::of(Vec::new(alloc)));
    }

    // Stages a put of a value that gets a block.
    fn stage_block(
        &mut self,
        number: u64,
        key: Key,
        value: Value,
        version: Version,
        class: u32,
        may_cut: bool,
    )
        requires may { TakesChange self.old key }
        requires planned { PutsInBlock self.old key value version class may_cut }
        ensures { StagesChange self.old self.new number (requests.Put key value) }
    {
        let pointer = self.allocator.take(class, may_cut).unwrap();
        let entry = Entry {
            key,
            version,
            body: Body::Pointer(pointer),
        };
        let _slot = stage(&mut self.places, number, entry, value);
    }

    // Stages a delete of a key that has a value.
    fn stage_delete(&mut self, alloc: Global, number: u64, key: Key, version: Version)
        requires may { TakesChange self.old key }
        requires planned { Deletes self.old key version }
        ensures { StagesChange self.old self.new number (requests.Delete key) }
    {
        let entry = Entry {
            key,
            version,
            body: Body::Tombstone,
        };
        let _slot = stage(&mut self.places, number, entry, Value::of(Vec::new(alloc)));
    }
}

impl Worker {
    // Begins a request whose key has no change under way. Where there is no memory for the answer to a get, the request
    // comes back and nothing changed.
    pub(crate) fn begin<R: Region>(
        &mut self,
        alloc: Global,
        region: &R,
        number: u64,
        request: Request,
    ) -> Result<(), NotAccepted>
        requires tied { StandsAside (R.state region.now) self.old (key_of request) }
        requires nothing { LeadsNothingYet self.old }
        requires idle { is_busy self.old.places.items (key_of request) ≡ false }
        requires room { may_stage self.old request ≡ true
            → 0 < room_at self.old.index (key_of request) }
        requires place { HasFree self.old.places.items }
        requires answers { HasAnswerRoom 1 self.old }
        ensures keeps { OnOk result (KeepsTies self.old self.new (key_of request)) }
        ensures begins { OnOk result (ByEachView (R.state region.now) self.old (key_of request)
            (λ v. Begins (IsTelling (R.state region.now)) self.old self.new
            (v.cell (key_of request)) number request)) }
        ensures room { OnOk result ((n : ℕ) → HasAnswerRoom (n + 1) self.old
            → HasAnswerRoom n self.new) }
        ensures rule { HasKeptRoom self.old → HasKeptRoom self.new }
        ensures rest { OnlyBegins self.old self.new }
        ensures uses { OnOk result (UsesRoom self.old self.new (key_of request)) }
        ensures places { OnOk result ((self.new.places ≡ self.old.places)
            ⊎ (is_busy self.new.places.items (key_of request) ≡ true)) }
        ensures busy { OnOk result ((k : ℕ) → is_busy self.old.places.items k ≡ true
            → is_busy self.new.places.items k ≡ true) }
        ensures line { OnOk result (KeepsLine self.old self.new (key_of request)) }
        ensures most { OnOk result (left self.new ≤ left self.old + staged_left) }
        ensures given_back { IfErr result (λ back. back.request ≡ request) }
        ensures unchanged { OnErr result (self.new ≡ self.old) }
        ensures gets { OnErr result (may_stage self.old request ≡ false) }
    {
        let asked = request.key();
        if self.stopped {
            self.answer_at_once(number, asked, Reply::Stopped, None);
            return Ok(());
        }
        let plan = match self.plan(request) {
            Ok(plan) => plan,
            Err(shortage) => {
                self.answer_at_once(number, asked, reply_for(&shortage), Some(shortage));
                return Ok(());
            }
        };
        match plan {
            Plan::Get { key } => {
                let Ok(reply) = self.found(alloc, region, key) else {
                    let request = Request::Get { key };
                    return Err(NotAccepted { request });
                };
                self.answer_at_once(number, asked, reply, None);
            }
            Plan::Absent => self.answer_at_once(number, asked, Reply::Absent, None),
            Plan::PutBeside {
                key,
                value,
                version,
            } => {
                self.stage_beside(alloc, number, key, value, version);
            }
            Plan::PutInBlock {
                key,
                value,
                version,
                class,
                may_cut,
            } => {
                self.stage_block(number, key, value, version, class, may_cut);
            }
            Plan::Delete { key, version } => self.stage_delete(alloc, number, key, version),
        }
        Ok(())
    }
}
