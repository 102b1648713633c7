// What is known of a key at the start goes into the lists of the start, where it fits there.
ghost use Rattle.std.specs.Prelude.{◌≡◌, ◌<◌, ◌∷◌, [], true, false, IfOk, IfSome, OnErr};
ghost use Rattle.core_index.specs.Records.{by_version, opened_with, untold};
ghost use Rattle.core_index.specs.Index.{all_places, EntersAs, EntersLone, KeepsWaiting, Stays};

use crate::compact::{compact, compact_live};
use crate::slot_map::SlotMap;
use crate::start_keys::StartKeys;
use crate::tombstones::older_entry;
use crate::types::Standee;
use fs_model::{Key, Memory, Version};
use log_entry::Body;

// Of two entries the older one and that of the last version, where they are these.
fn two_of(version: Version, standing: &[Standee]) -> Option<(Standee, Standee)>
    ensures older { IfSome result (λ two. two.0.version < version) }
    ensures last { IfSome result (λ two. two.1.version ≡ version) }
    ensures standing { IfSome result (λ two. by_version standing.now
        ≡ untold two.0 ∷ by_version (two.1 ∷ [])) }
{
    let [one, two] = standing else {
        return None;
    };
    if one.version < version && two.version == version {
        return Some((*one, *two));
    }
    if two.version < version && one.version == version {
        return Some((*two, *one));
    }
    None
}

// Puts a key into a list of which the entry of the last version stands alone. Says whether it fits there.
fn enter_lone(
    slots: &SlotMap,
    start: &mut StartKeys,
    key: Key,
    version: Version,
    body: &Body,
    standing: &[Standee],
) -> Result<bool, Memory>
    ensures enters { IfOk result (λ there. there ≡ true → EntersLone slots.now.entries start.old
        start.new key (opened_with version body.now standing.now)) }
    ensures stays { IfOk result (λ there. there ≡ false → start.new ≡ start.old) }
    ensures err { OnErr result (Stays start.old start.new) }
{
    if let Some(tombstone) = compact(slots, start, key, version, body, standing) {
        start.add_deleted(tombstone)?;
        return Ok(true);
    }
    if let Some(live) = compact_live(slots, start, key, version, body, standing) {
        start.add_live(live, body)?;
        return Ok(true);
    }
    Ok(false)
}

// The same of a key of which an older entry stands too.
fn enter_twin(
    slots: &SlotMap,
    start: &mut StartKeys,
    key: Key,
    body: &Body,
    older: Standee,
    last: Standee,
) -> Result<bool, Memory>
    requires { older.version < last.version }
    ensures enters { IfOk result (λ there. there ≡ true → EntersAs
        (all_places slots.now.entries start.old) (all_places slots.now.entries start.new) key
        (record {
          version = last.version;
          body = body.now;
          standing = untold older ∷ by_version (last ∷ []);
        })) }
    ensures stays { IfOk result (λ there. there ≡ false → start.new ≡ start.old) }
    ensures waits { KeepsWaiting slots.now.entries start.old start.new }
{
    let Some(older) = older_entry(key, &older) else {
        return Ok(false);
    };
    if !start.older.is_below(key) {
        return Ok(false);
    }
    if !enter_lone(slots, start, key, last.version, body, &[last])? {
        return Ok(false);
    }
    start.add_older(older)?;
    Ok(true)
}

/// Puts what is known of a key at the start into the lists of the start, and says whether it fits there.
pub fn enter_start(
    slots: &SlotMap,
    start: &mut StartKeys,
    key: Key,
    version: Version,
    body: &Body,
    standing: &[Standee],
) -> Result<bool, Memory>
    ensures enters { IfOk result (λ there. there ≡ true → EntersAs
        (all_places slots.now.entries start.old) (all_places slots.now.entries start.new) key
        (opened_with version body.now standing.now)) }
    ensures stays { IfOk result (λ there. there ≡ false → start.new ≡ start.old) }
    ensures waits { KeepsWaiting slots.now.entries start.old start.new }
{
    match two_of(version, standing) {
        None => enter_lone(slots, start, key, version, body, standing),
        Some((older, last)) => enter_twin(slots, start, key, body, older, last),
    }
}
