// Names that are gone from the own log, in the outbox for the owners of their keys.
ghost use Rattle.std.specs.Prelude.{◌≡◌, ◌≢◌, ℕ, ◌+◌, ◌≤◌, ◌<◌, length, Some, option_map, slice_get};
ghost use Rattle.group_board.specs.declared.names.Notices.{Notices as ToSend};
ghost use Rattle.group_laws.specs.Places.{Place as PlaceOf, members, core_of};
ghost use Rattle.core_worker.specs.GoneMail.{names_of, with_names, with_gone, HasPlacesFor, FilesGone};

use chunk_map::Layout;
use group_board::{Names, Notices};
use log_entry::EntryName;
use store_image::geometry::owner;

// Puts those of the names that are of a core's keys behind a list.
fn file_names(layout: &Layout, core: u32, names: &[EntryName], gone: &mut Names)
    requires places { length gone.old.names + length names.now ≤ gone.old.room }
    ensures { gone.new ≡ with_names (names_of layout.now core names.now) gone.old }
{
    let geometry = layout.geometry();
    for name in names {
        if owner(&geometry, name.key) == core {
            gone.push(*name);
        }
    }
}

// The same of the notices for a core's member, by its number.
fn file_for(layout: &Layout, core: u32, names: &[EntryName], boxes: &mut Vec<Notices>, to: u32)
    requires within { to < length boxes.old.items }
    requires places { (n : ToSend) → slice_get boxes.old.items to ≡ Some n
        → length n.gone.names + length names.now ≤ n.gone.room }
    ensures count { length boxes.new.items ≡ length boxes.old.items }
    ensures here { slice_get boxes.new.items to
        ≡ option_map (with_gone layout.now core names.now) (slice_get boxes.old.items to) }
    ensures others { (h : ℕ) → h ≢ to → slice_get boxes.new.items h
        ≡ slice_get boxes.old.items h }
{
    file_names(layout, core, names, &mut boxes[to as usize].gone);
}

// Puts names that are gone into the notices for the other members, each for the owner of its key. It takes no memory.
pub(crate) fn file_gone(layout: &Layout, core: u32, names: &[EntryName], boxes: &mut Vec<Notices>)
    requires core { core < layout.now.cores }
    requires count { length boxes.old.items ≡ layout.now.group }
    requires places { HasPlacesFor (length names.now) boxes.old.items }
    ensures files { (p : PlaceOf) (m : ℕ) → layout.now ≡ p.layout → core ≡ core_of p m
        → m < members p → FilesGone p m names.now boxes.old.items boxes.new.items }
{
    let group = layout.geometry().group;
    let first = core - core % group;
    for to in 0..group {
        if first + to != core {
            file_for(layout, first + to, names, boxes, to);
        }
    }
}
