// What a core tells its group between two moves.
use crate::group_leads::{AllLeads, GroupLeads, Lead};
use std::sync::Wait;
use std::time::Clock;

/// A core as its group knows it: whether it leads, and whether it has posted all it can.
#[derive(Drop)]
pub struct CoreSide<'a> {
    // its group's and its number in it, where there are others in the group
    group: Option<(&'a GroupLeads, usize)>,
    lead: Option<Lead>,
    // how many leads had begun when it had posted all it can
    settled: Option<u64>,
}

impl<'a> CoreSide<'a> {
    /// The core begins to work.
    pub fn begin(leads: &'a AllLeads, core: usize) -> CoreSide<'a> {
        let group = leads.of_core(core);
        if let Some((leads, own)) = group {
            leads.work(own);
        }
        CoreSide {
            group,
            lead: None,
            settled: None,
        }
    }

    /// Whether there is anybody to hold back for.
    pub fn has_others(&self) -> bool {
        self.group.is_some()
    }

    /// The core has something to do besides trying to lead.
    pub fn go_on(&mut self) {
        if let Some((leads, own)) = self.group {
            if self.settled.is_some() {
                leads.work(own);
                self.settled = None;
            }
        }
    }

    /// The core has posted all it can. It is held back, where it is faster to lead together.
    pub fn hold(&mut self, rt: &impl Wait) {
        if let Some((leads, own)) = self.group {
            let begun = match self.settled {
                Some(begun) => begun,
                None => leads.settle(own),
            };
            self.settled = Some(begun);
            leads.wait(rt, begun);
        }
    }

    /// A move was made, and the core leads or doesn't.
    pub fn moved(&mut self, clock: &impl Clock, leading: bool) {
        if let Some((leads, _)) = self.group {
            self.lead = match self.lead {
                None if leading => Some(leads.begin(clock)),
                Some(lead) if !leading => {
                    leads.end(clock, lead);
                    None
                }
                lead => lead,
            };
        }
    }

    /// The core has ended.
    pub fn end(&self) {
        if let Some((leads, own)) = self.group {
            leads.leave(own);
        }
    }
}
