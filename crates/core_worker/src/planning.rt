// What is done for a request, or why it is refused.
ghost use Rattle.std.specs.Prelude.{◌≡◌, IfOk, IfErr};
ghost use Rattle.fs_model.specs.declared.model.Request.TheVariants as requests;
ghost use Rattle.fs_model.specs.Cells.{key_of};
ghost use Rattle.core_worker.specs.Refusals.{IsMeasured, reply_to};
ghost use Rattle.core_worker.specs.Plans.{has_value, HasVersionLeft, IsCauseOf, IsPlanOf};

use crate::types::Plan;
use crate::worker::Worker;
use chunk_map::layout_sizes::SHORTEST_IN_BLOCK;
use core_index::Look;
use core_room::{Shortage, byte_count, class_or_zero, lines_needed, longest_value};
use fs_model::{Key, Reply, Request, Value};

// The reply that a cause stands for.
pub(crate) fn reply_for(shortage: &Shortage) -> Reply
    ensures { result ≡ reply_to shortage.now }
{
    match shortage {
        Shortage::Room(_) => Reply::Full,
        Shortage::Block(_) => Reply::Full,
        Shortage::Versions { .. } => Reply::VersionsSpent,
        Shortage::Length { .. } => Reply::TooLong,
    }
}

impl Worker {
    // Whether the key has a value.
    pub(crate) fn is_live(&self, key: Key) -> bool
        ensures { result ≡ has_value self.now key }
    {
        match self.index.look(key) {
            Look::Unknown => false,
            Look::Deleted => false,
            Look::Embedded(_) => true,
            Look::Block(_) => true,
        }
    }

    // What is done for a put, or why it is refused.
    fn plan_put(&self, key: Key, value: Value) -> Result<Plan, Shortage>
        requires measured { IsMeasured self.now }
        ensures plan { IfOk result (IsPlanOf self.now (requests.Put key value)) }
        ensures cause { IfErr result (IsCauseOf self.now (requests.Put key value)) }
    {
        let length = byte_count(value.bytes());
        if length > longest_value(&self.layout) {
            return Err(Shortage::Length { length });
        }
        let version = match self.index.next_version(key, false) {
            Ok(version) => version,
            Err(spent) => return Err(Shortage::Versions { last: spent.last }),
        };
        let lines = lines_needed(length);
        let class = class_or_zero(length);
        let supply = self.supply_for(lines, class)?;
        if length < SHORTEST_IN_BLOCK {
            return Ok(Plan::PutBeside {
                key,
                value,
                version,
            });
        }
        let may_cut = supply.may_cut(lines);
        Ok(Plan::PutInBlock {
            key,
            value,
            version,
            class,
            may_cut,
        })
    }

    // What is done for a delete, or why it is refused.
    fn plan_delete(&self, key: Key) -> Result<Plan, Shortage>
        requires measured { IsMeasured self.now }
        requires left { HasVersionLeft self.now key }
        ensures plan { IfOk result (IsPlanOf self.now (requests.Delete key)) }
        ensures cause { IfErr result (IsCauseOf self.now (requests.Delete key)) }
    {
        if !self.is_live(key) {
            return Ok(Plan::Absent);
        }
        self.supply_for(1, 0)?;
        let version = self.index.next_version(key, true).unwrap();
        Ok(Plan::Delete { key, version })
    }

    // What a core that runs does for a request, or why it refuses it.
    pub(crate) fn plan(&self, request: Request) -> Result<Plan, Shortage>
        requires measured { IsMeasured self.now }
        requires left { HasVersionLeft self.now (key_of request) }
        ensures plan { IfOk result (IsPlanOf self.now request) }
        ensures cause { IfErr result (IsCauseOf self.now request) }
    {
        match request {
            Request::Put { key, value } => self.plan_put(key, value),
            Request::Get { key } => Ok(Plan::Get { key }),
            Request::Delete { key } => self.plan_delete(key),
        }
    }
}
