// Names that stand in no log any more: their entries leave the records of their keys, and keys are forgotten.
ghost use Rattle.std.specs.Prelude.{◌≡◌, ℕ, length, ◌≤◌, ◌<◌};
ghost use Rattle.core_index.specs.Index.{all_untold};
ghost use Rattle.group_laws.specs.declared.group_sizes.TheConstants.{SLOTS};
ghost use Rattle.core_worker.specs.OwnPlaces.{place_at, Replaces};
ghost use Rattle.core_worker.specs.GoneNames.{is_out, restarted, Lacks, Forgets, ForgetsKey, LosesNames, KnowsAll, LetsNamesGo, SparesPosted};
ghost use Rattle.std.specs.Prelude.{List};
ghost use Rattle.log_entry.specs.declared.entry.EntryName.{EntryName};
ghost use Rattle.core_index.specs.Slots as slots;
ghost use Rattle.group_laws.specs.Places as groups;
ghost use Rattle.group_laws.specs.MemberViews.{View};
ghost use Rattle.core_worker.specs.declared.types.Place.{Place as WorkerPlace};
ghost use Rattle.core_worker.specs.KeyTies.{IsPlaced};
ghost use Rattle.core_worker.specs.OwnPlaces.{own};

use crate::post_item::swap_place;
use crate::types::Place;
use core_index::CoreIndex;
use fs_model::Key;
use group_laws::group_sizes::SLOTS;
use log_entry::{Entry, EntryName};

// Whether a change of the key is posted.
fn is_out(places: &Vec<Place>, key: Key) -> bool
    ensures { result ≡ is_out places.now.items key }
{
    for place in places {
        match place {
            Place::Free => {}
            Place::Staged { .. } => {}
            Place::Posted { key: other, .. } => {
                if key == *other {
                    return true;
                }
            }
        }
    }
    false
}

// The same place, where a staged change of the key is its first one.
fn restarted(place: Place, key: Key) -> Place
    ensures { result ≡ restarted key place }
{
    match place {
        Place::Staged {
            number,
            entry,
            value,
        } => {
            if key != entry.key {
                return Place::Staged {
                    number,
                    entry,
                    value,
                };
            }
            let Entry { key, body, .. } = entry;
            Place::Staged {
                number,
                entry: Entry {
                    key,
                    version: 1,
                    body,
                },
                value,
            }
        }
        other => other,
    }
}

fn restart_at(places: &mut Vec<Place>, slot: u32, key: Key)
    requires { slot < length places.old.items }
    ensures { Replaces places.old.items places.new.items slot
        (restarted key (place_at places.old.items slot)) }
{
    let place = swap_place(places, slot, Place::Free);
    let _ = swap_place(places, slot, restarted(place, key));
}

// A staged change of the key is its first one.
fn restart(places: &mut Vec<Place>, key: Key)
    requires eight { length places.old.items ≡ SLOTS }
    ensures count { length places.new.items ≡ SLOTS }
    ensures each { (s : ℕ) → place_at places.new.items s
        ≡ restarted key (place_at places.old.items s) }
{
    for slot in 0..SLOTS {
        restart_at(places, slot, key);
    }
}

// Takes the entries of these names out of the records of their keys.
fn take_names(index: &mut CoreIndex, names: &[EntryName])
    ensures lacks { Lacks names.now index.old index.new }
    ensures untold { all_untold index.new ≤ all_untold index.old }
{
    for name in names {
        index.gone(*name);
    }
}

// Forgets the keys of these names that are deleted, of which nothing stands, and of which no change is posted. A staged
// change of such a key is its first one.
fn forget_keys(index: &mut CoreIndex, places: &mut Vec<Place>, names: &[EntryName])
    requires eight { length places.old.items ≡ SLOTS }
    ensures forgets { Forgets names.now places.old.items places.new.items index.old index.new }
    ensures untold { all_untold index.new ≤ all_untold index.old }
{
    for name in names {
        forget_key(index, places, name.key);
    }
}

// The same of one key.
fn forget_key(index: &mut CoreIndex, places: &mut Vec<Place>, key: Key)
    requires eight { length places.old.items ≡ SLOTS }
    ensures forgets { ForgetsKey key places.old.items places.new.items index.old index.new }
    ensures untold { all_untold index.new ≤ all_untold index.old }
{
    if index.forgettable(key) && !is_out(places, key) {
        index.forget(key);
        restart(places, key);
    }
}

// Takes these names, which stand in no log any more, out of what is known of the keys.
pub(crate) fn lose_names(index: &mut CoreIndex, places: &mut Vec<Place>, names: &[EntryName])
    requires eight { length places.old.items ≡ SLOTS }
    ensures loses { LosesNames names.now places.old.items places.new.items index.old index.new }
    ensures untold { all_untold index.new ≤ all_untold index.old }
{
    take_names(index, names);
    forget_keys(index, places, names);
}

/// Where names are gone from a member's view, its keys are known as before: a key of which nothing stands any more is
/// forgotten, and a staged change of it is its first one. What is pledged stays.
pub fn every_loss()
    ensures knows { (p : groups.Place) (m : ℕ) (ns : List EntryName) (v : View) (v' : View)
        (u : View) (ps qs : List WorkerPlace) (es ix : List (ℕ × slots.Place))
        → KnowsAll p m v ps es → LetsNamesGo p m ns v v' u ps qs es ix → KnowsAll p m u qs ix }
    ensures placed { (p : groups.Place) (m : ℕ) (ns : List EntryName) (v : View) (v' : View)
        (u : View) (ps qs : List WorkerPlace) (es ix : List (ℕ × slots.Place))
        → KnowsAll p m v ps es → LetsNamesGo p m ns v v' u ps qs es ix → SparesPosted p m v u
        → (s : ℕ) → IsPlaced p m v s (place_at ps s) → IsPlaced p m u s (place_at qs s) }
    ensures pledged { (p : groups.Place) (m : ℕ) (ns : List EntryName) (v : View) (v' : View)
        (u : View) (ps qs : List WorkerPlace) (es ix : List (ℕ × slots.Place))
        → KnowsAll p m v ps es → LetsNamesGo p m ns v v' u ps qs es ix → own qs ≡ own ps }
{}
