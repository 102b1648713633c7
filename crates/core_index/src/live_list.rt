// The keys that had a value at the start, each by an entry that stands alone.
ghost use Rattle.std.specs.Prelude.{◌≡◌, ◌≢◌, ℕ, ◌+◌, ◌<◌, ◌≤◌, ◌++◌, ◌∷◌, List, [], Some, None, option_map, true, false, IfOk, IfSome, IfNone, OnOk, OnErr, length, take, drop, IsTrue};
ghost use Rattle.std.specs.List.{AllByRecursion};
ghost use Rattle.log_entry.specs.declared.entry.EntryName.{EntryName};
ghost use Rattle.core_index.specs.Index.{all_untold, place_at, untold_of, TurnsAt, gone_place, cleared};
ghost use Rattle.core_index.specs.Noted.{name_with};
ghost use Rattle.core_index.specs.Records.{Shows, ShowsBody, without, opened_with, standing_with, last_of, live_version};
ghost use Rattle.core_index.specs.Lives.{entry_home, entry_version, live_key, bytes_in, body_in, IsWithin, valued, IsStanding, live_place, live_at, turned, AllLess, KeysRise, IsLiveSpot, IsNotThere, placed_lives, FitsLive};

use crate::key_slot::KeySlot;
use crate::short_names::{self, short_of};
use crate::types::{LiveFate, LiveKey, Look, NEAR, SHARE, Standee, StandingEntry, ValuePlace};
use fs_model::{Key, Memory, Value, Version};
use log_entry::{Body, EntryName};
use std::alloc::Global;
use std::cell::Cell;
use std::marker::Model;

// The length of every value beside its key fits into a byte.
const BYTES: u32 = 256;

/// The keys that had a value at the start, by rising key, and the bytes of all values one behind the other. Only `push`
/// and `slot` take memory.
#[derive(Drop)]
pub struct LiveList {
    items: Vec<LiveKey>,
    bytes: Vec<u8>,
    // The place where a key was found last. Keys are often asked for by rising key.
    near: Cell<usize>,
}

impl Model for LiveList {
    ghost use Rattle.core_index.specs.Lives.{Lives, AreLives};

    ghost Value = { Lives };

    ghost view = { λ a. record { items = a.items.items; bytes = a.bytes.items } };

    ghost invariant = { λ a. AreLives a.items.items a.bytes.items };
}

/// The key, of its two halves.
pub fn key_of(live: &LiveKey) -> Key
    ensures { result ≡ live_key live.now }
{
    u64::from(live.high) * SHARE + u64::from(live.low)
}

/// The version of the entry.
pub fn version_of(live: &LiveKey) -> Version
    ensures { result ≡ entry_version live.now }
{
    short_names::version_of(live.version_low, live.version_and_home)
}

// The core in whose log it stands, by its number in the region.
fn home_of(live: &LiveKey) -> u32
    ensures { result ≡ entry_home live.now }
{
    short_names::home_of(live.version_and_home)
}

// Where the value will be, once its bytes are behind so many others.
fn held_of(body: &Body, start: usize) -> Option<ValuePlace>
    ensures body { IfSome result (λ held. (bytes : List ℕ) → length bytes ≡ start
        → body_in (bytes ++ bytes_in body.now) held ≡ body.now) }
    ensures within { IfSome result (λ held. (bytes : List ℕ) → length bytes ≡ start
        → IsWithin (bytes ++ bytes_in body.now) held) }
{
    match body {
        Body::Tombstone => None,
        Body::Pointer(pointer) => {
            if *pointer >= SHARE {
                return None;
            }
            Some(ValuePlace::InBlock(*pointer as u32))
        }
        Body::Embedded(value) => {
            let size = value.bytes().len();
            if size >= BYTES as usize || start as u64 >= SHARE {
                return None;
            }
            Some(ValuePlace::Beside(start as u32, size as u8))
        }
    }
}

// What is known of a key, where it is of this kind and fits.
fn live_key_of(
    key: Key,
    version: Version,
    body: &Body,
    standing: &[Standee],
    start: usize,
) -> Option<LiveKey>
    ensures key { IfSome result (λ x. live_key x ≡ key) }
    ensures within { IfSome result (λ x. (bytes : List ℕ) → length bytes ≡ start
        → IsWithin (bytes ++ bytes_in body.now) x.held) }
    ensures valued { IfSome result (λ x. (bytes : List ℕ) → length bytes ≡ start
        → valued (bytes ++ bytes_in body.now) x
        ≡ Some (opened_with version body.now standing.now)) }
{
    let [only] = standing else {
        return None;
    };
    if only.version != version {
        return None;
    }
    let (version_low, version_and_home) = short_of(version, only.home)?;
    let held = held_of(body, start)?;
    Some(LiveKey {
        high: (key / SHARE) as u32,
        low: (key % SHARE) as u32,
        version_low,
        version_and_home,
        fate: LiveFate::Stands,
        held,
    })
}

// Whether its entry has this version, and stands.
fn stands(live: &LiveKey, version: Version) -> bool
    ensures found { result ≡ true → (entry_version live.now ≡ version) × IsStanding live.now.fate }
    ensures none { (bytes : List ℕ) → result ≡ false → option_map (without version)
        (valued bytes live.now) ≡ valued bytes live.now }
{
    match live.fate {
        LiveFate::Stands => version_of(live) == version,
        _ => false,
    }
}

// Whether a key is above all of these.
fn all_less(items: &[LiveKey], key: Key) -> bool
    requires { KeysRise items.now }
    ensures { result ≡ true → AllLess items.now key }
{
    match items.last() {
        None => true,
        Some(last) => key_of(last) < key,
    }
}

// Where a key is, if it is at this place or shortly behind it.
fn spot_near(items: &[LiveKey], near: usize, key: Key) -> Option<usize>
    ensures { IfSome result (IsLiveSpot items.now key) }
{
    let end = items.len().min(near.saturating_add(NEAR));
    for at in near..end {
        let there = key_of(&items[at]);
        if there == key {
            return Some(at);
        }
        if there > key {
            return None;
        }
    }
    None
}

// Where a key is among all.
fn spot_among(items: &[LiveKey], key: Key) -> Option<usize>
    requires { KeysRise items.now }
    ensures found { IfSome result (IsLiveSpot items.now key) }
    ensures missing { IfNone result (IsNotThere items.now key) }
{
    let at = items.partition_point(|x| key_of(x) < key);
    if at >= items.len() {
        return None;
    }
    if key_of(&items[at]) != key {
        return None;
    }
    Some(at)
}

// The same, which is looked for near this place first. Of keys that come by rising key the last one tells that they are
// nowhere.
fn live_spot(items: &[LiveKey], near: usize, key: Key) -> Option<usize>
    requires { KeysRise items.now }
    ensures found { IfSome result (IsLiveSpot items.now key) }
    ensures missing { IfNone result (IsNotThere items.now key) }
{
    if all_less(items, key) {
        return None;
    }
    match spot_near(items, near, key) {
        None => spot_among(items, key),
        found => found,
    }
}

// The part of the bytes that a value has.
fn part(bytes: &[u8], start: u32, size: u8) -> &[u8]
    requires { start + size ≤ length bytes.now }
    ensures { result.now ≡ take size (drop start bytes.now) }
{
    let start = start as usize;
    &bytes[start..start + usize::from(size)]
}

fn show(bytes: &[u8], held: ValuePlace) -> Look<'_>
    requires { IsWithin bytes.now held }
    ensures { ShowsBody (body_in bytes.now held) result }
{
    match held {
        ValuePlace::InBlock(pointer) => Look::Block(u64::from(pointer)),
        ValuePlace::Beside(start, size) => Look::Embedded(part(bytes, start, size)),
    }
}

fn body_of(alloc: Global, bytes: &[u8], held: ValuePlace) -> Result<Body, Memory>
    requires { IsWithin bytes.now held }
    ensures { IfOk result (λ body. body ≡ body_in bytes.now held) }
{
    match held {
        ValuePlace::InBlock(pointer) => Ok(Body::Pointer(u64::from(pointer))),
        ValuePlace::Beside(start, size) => {
            let own = Vec::from_slice(alloc, part(bytes, start, size))?;
            Ok(Body::Embedded(Value::of(own)))
        }
    }
}

// Adds the bytes that a body has beside its key.
fn add_bytes(bytes: &mut Vec<u8>, body: &Body) -> Result<(), Memory>
    ensures ok { OnOk result (bytes.new.items ≡ bytes.old.items ++ bytes_in body.now) }
    ensures err { OnErr result (bytes.new.items ≡ bytes.old.items) }
{
    if let Body::Embedded(value) = body {
        bytes.extend_from_slice(value.bytes())?;
    }
    Ok(())
}

// The entry of a key, where it stands.
fn standing_of(live: &LiveKey) -> StandingEntry
    ensures { result ≡ standing_with (entry_version live.now) (entry_home live.now) false }
{
    StandingEntry {
        version: version_of(live),
        home: home_of(live),
        told: false,
    }
}

// What there is of a key, where it is not elsewhere, and room for one change.
fn slot_of(alloc: Global, bytes: &[u8], live: &LiveKey) -> Result<KeySlot, Memory>
    requires { IsWithin bytes.now live.now.held }
    ensures { IfOk result (λ slot. slot ≡ record { known = valued bytes.now live.now; room = 1 }) }
{
    match live.fate {
        LiveFate::Moved => Ok(KeySlot::with_room()),
        LiveFate::Gone => {
            let body = body_of(alloc, bytes, live.held)?;
            Ok(KeySlot::of_one(version_of(live), body, None))
        }
        LiveFate::Stands => {
            let body = body_of(alloc, bytes, live.held)?;
            Ok(KeySlot::of_one(version_of(live), body, Some(standing_of(live))))
        }
    }
}

/// The version of the entry, or 0 where the record is not here.
pub fn last_of(live: &LiveKey) -> Version
    ensures { (bytes : List ℕ) → result ≡ last_of (valued bytes live.now) }
{
    match live.fate {
        LiveFate::Moved => 0,
        _ => version_of(live),
    }
}

impl LiveList {
    /// No keys.
    pub fn empty(alloc: Global) -> LiveList
        ensures { result.items ≡ [] }
    {
        LiveList {
            items: Vec::new(alloc),
            bytes: Vec::new(alloc),
            near: Cell::new(0),
        }
    }

    /// The keys by rising key.
    pub fn items(&self) -> &[LiveKey]
        ensures items { result.now ≡ self.now.items }
        ensures rising { KeysRise self.now.items }
    {
        &self.items
    }

    /// Whether a key is above all of these.
    pub fn is_below(&self, key: Key) -> bool
        ensures { result ≡ true → AllLess self.now.items key }
    {
        all_less(&self.items, key)
    }

    /// What is known of a key at the start, where it fits into the list.
    pub fn fit(
        &self,
        key: Key,
        version: Version,
        body: &Body,
        standing: &[Standee],
    ) -> Option<LiveKey>
        ensures { IfSome result (FitsLive self.now key body.now
            (opened_with version body.now standing.now)) }
    {
        if !self.is_below(key) {
            return None;
        }
        live_key_of(key, version, body, standing, self.bytes.len())
    }

    /// Adds a key that is above all others.
    pub fn push(&mut self, live: LiveKey, body: &Body) -> Result<(), Memory>
        requires above { AllLess self.old.items (live_key live) }
        requires within { IsWithin (self.old.bytes ++ bytes_in body.now) live.held }
        ensures ok { OnOk result (TurnsAt (placed_lives self.old) (placed_lives self.new)
            (live_key live) (Some (live_place (self.old.bytes ++ bytes_in body.now) live))) }
        ensures err { OnErr result (placed_lives self.new ≡ placed_lives self.old) }
    {
        add_bytes(&mut self.bytes, body)?;
        self.items.push(live)?;
        Ok(())
    }

    /// What there is of a key.
    pub fn find(&self, key: Key) -> Option<LiveKey>
        ensures found { result ≡ live_at self.now.items key }
        ensures within { IfSome result (λ x. IsWithin self.now.bytes x.held) }
    {
        let Some(spot) = live_spot(&self.items, self.near.get(), key) else {
            return None;
        };
        self.near.set(spot);
        Some(self.items[spot])
    }

    /// What such a key has.
    pub fn look(&self, live: &LiveKey) -> Look<'_>
        requires { IsWithin self.now.bytes live.now.held }
        ensures { Shows (valued self.now.bytes live.now) result }
    {
        match live.fate {
            LiveFate::Moved => Look::Unknown,
            _ => show(&self.bytes, live.held),
        }
    }

    /// What there is of such a key, with room for one change.
    pub fn slot(&self, alloc: Global, live: &LiveKey) -> Result<KeySlot, Memory>
        requires { IsWithin self.now.bytes live.now.held }
        ensures { IfOk result (λ slot. slot ≡ record {
          known = valued self.now.bytes live.now;
          room = 1;
        }) }
    {
        slot_of(alloc, &self.bytes, live)
    }

    // Gives the entry of a key another fate.
    fn set(&mut self, key: Key, fate: LiveFate)
        ensures { self.new ≡ record {
          items = turned self.old.items key fate;
          bytes = self.old.bytes;
        } }
    {
        let Some(spot) = live_spot(&self.items, self.near.get(), key) else {
            return;
        };
        self.items[spot].fate = fate;
    }

    /// Takes an entry out of those that stand.
    pub fn gone(&mut self, name: EntryName)
        ensures gone { TurnsAt (placed_lives self.old) (placed_lives self.new) name.key
            (option_map (gone_place name.version) (place_at (placed_lives self.old) name.key)) }
        ensures untold { all_untold (placed_lives self.new) ≤ all_untold (placed_lives self.old) }
    {
        let Some(live) = self.find(name.key) else {
            return;
        };
        if stands(&live, name.version) {
            self.set(name.key, LiveFate::Gone);
        }
    }

    /// Takes the record of a key out.
    pub fn clear(&mut self, key: Key)
        ensures cleared { TurnsAt (placed_lives self.old) (placed_lives self.new) key
            (option_map cleared (place_at (placed_lives self.old) key)) }
        ensures untold { all_untold (placed_lives self.new)
            + untold_of (place_at (placed_lives self.old) key) ≡ all_untold (placed_lives self.old) }
    {
        self.set(key, LiveFate::Moved);
    }
}
