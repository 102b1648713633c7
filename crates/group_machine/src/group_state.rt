// How the state of a group begins, and what it has of a key.
ghost use Rattle.std.specs.Prelude.{◌≡◌, ℕ, ◌/◌, ◌<◌, length, IfOk};
ghost use Rattle.std.specs.List.{AllByRecursion};
ghost use Rattle.std.specs.Option.{option_copied};
ghost use Rattle.group_laws.specs.Invariant.{Lawful};
ghost use Rattle.group_laws.specs.Opening.{IsOpened, nothing};
ghost use Rattle.group_laws.specs.OpeningImages as images;
ghost use Rattle.group_laws.specs.OpeningImages.{IsBlank};
ghost use Rattle.group_machine.specs.Shows.{group_of, place_of, IsEmptyView};

use crate::member_places::owner_of;
use crate::state::{GroupState, MemberView};
use chunk_map::layouts::Layout;
use fs_model::Memory;
use fs_model::model::{Key, Value, Version};
use std::alloc::Global;
use std::collections::BTreeMap;

impl MemberView {
    /// The view of a member that did nothing yet, on an empty part. It takes no memory.
    pub fn empty(alloc: Global) -> MemberView
        ensures { IsEmptyView result }
    {
        MemberView {
            kept: Vec::new(alloc),
            flying: Vec::new(alloc),
            taken: BTreeMap::new(alloc),
            broken: false,
            holds: false,
            looked: Vec::new(alloc),
            last: BTreeMap::new(alloc),
            cell: BTreeMap::new(alloc),
            pending: BTreeMap::new(alloc),
            present: BTreeMap::new(alloc),
            told: Vec::new(alloc),
            dead: Vec::new(alloc),
            doomed: Vec::new(alloc),
            leaving: Vec::new(alloc),
            mailed: BTreeMap::new(alloc),
            blocks: BTreeMap::new(alloc),
            posted: Vec::new(alloc),
            took: Vec::new(alloc),
        }
    }
}

/// So many views of members that did nothing yet.
fn empty_views(alloc: Global, count: u32) -> Result<Vec<MemberView>, Memory>
    ensures count { IfOk result (λ views. length views.items ≡ count) }
    ensures empty { IfOk result (λ views. AllByRecursion IsEmptyView views.items) }
{
    let mut views = Vec::new(alloc);
    for _ in 0..count {
        views.push(MemberView::empty(alloc))?;
    }
    Ok(views)
}

impl GroupState {
    /// The state of a group of the layout that opens on an empty region: the one that the words of any region say
    /// in which each chunk is free.
    pub fn empty(alloc: Global, layout: &Layout, group: u32) -> Result<GroupState, Memory>
        requires { group < layout.now.cores / layout.now.group }
        ensures place { IfOk result
            (λ g. place_of g ≡ record { layout = layout.now; group = group }) }
        ensures opened { IfOk result (λ g. IsOpened (group_of g) nothing) }
        ensures words { IfOk result (λ g. (image : ℕ → ℕ) → IsBlank layout.now image
            → group_of g ≡ images.opened (place_of g) image) }
        ensures lawful { IfOk result (λ g. Lawful (group_of g)) }
    {
        let geometry = layout.geometry();
        let views = empty_views(alloc, geometry.group)?;
        Ok(GroupState {
            layout: *layout,
            group,
            holder: None,
            slots: BTreeMap::new(alloc),
            mail: BTreeMap::new(alloc),
            views,
        })
    }

    /// The value of a key of the group, as its owner has it.
    pub fn cell(&self, key: Key) -> Option<&Value>
        ensures { option_copied result ≡ (group_of self.now).cell key }
    {
        let owner = owner_of(&self.layout, self.group, key);
        match self.views.get(owner as usize) {
            Some(view) => view.cell.get(&key),
            None => None,
        }
    }

    /// The version of the last finished change of a key of the group, or 0.
    pub fn last(&self, key: Key) -> Version
        ensures { result ≡ (group_of self.now).last key }
    {
        let owner = owner_of(&self.layout, self.group, key);
        match self.views.get(owner as usize) {
            Some(view) => view.last.get(&key).copied().unwrap_or(0),
            None => 0,
        }
    }
}
