// Scanning a payload, place by place.
ghost use Rattle.std.specs.Prelude.{◌≡◌, ℕ, ◌+◌, ◌-◌, ◌*◌, ◌^◌, ◌<◌, ◌≤◌, ◌==◌, ◌&&◌, ◌%◌, not, length, OnOk, map, drop, Bool};
ghost use Rattle.log_entry.specs.Batches.{Scan, ended, scan, scan_of};
ghost use Rattle.store_image.specs.Scanned.{IsScan, IsNext, name_at};

use fs_model::Memory;
use log_entry::entry::{EntryName, NameRead};
use log_entry::entry_reading::read_name;
use pm_region::LINE_WORDS;
use std::alloc::Global;

/// An entry by its name, with its place in the payload. Its body stays where it is.
#[derive(Clone, Copy)]
pub struct AtPlace {
    /// The entry's first word, counted from the payload's first.
    pub place: u64,
    /// Which entry stands there.
    pub name: EntryName,
}

/// How reading goes on behind a place.
#[derive(Clone, Copy)]
enum Next {
    Stop,
    Zero,
    Found { name: EntryName, left: u64 },
}

fn is_inside(place: usize, padded: bool) -> bool
    ensures { result ≡ (padded && not (place % 8 == 0)) }
{
    padded && place as u64 % LINE_WORDS != 0
}

fn what_follows(payload: &[u64], place: usize, padded: bool) -> Next
    requires { place < length payload.now }
    ensures { IsNext payload.now place padded result }
{
    if is_inside(place, padded) {
        if payload[place] != 0 {
            return Next::Stop;
        }
        return Next::Zero;
    }
    match read_name(payload, place as u64) {
        NameRead::Entry { name, length } => Next::Found {
            name,
            left: length.saturating_sub(1),
        },
        NameRead::Padding => {
            if place as u64 % LINE_WORDS == 0 {
                Next::Stop
            } else {
                Next::Zero
            }
        }
        NameRead::BadEntry { .. } => Next::Stop,
    }
}

// The place behind an entry of which so many words are left behind this place, or the end of the words.
fn place_behind(payload: &[u64], place: usize, left: u64) -> usize
    requires { place < length payload.now }
    ensures above { place < result }
    ensures within { result ≤ length payload.now }
    ensures same { (padded : Bool) → scan (place + 1) left padded (drop (place + 1) payload.now)
        ≡ scan result 0 padded (drop result payload.now) }
{
    let rest = (payload.len() - place - 1) as u64;
    if left >= rest {
        return payload.len();
    }
    place + 1 + left as usize
}

/// The entries up to the end, or up to the first place where none may stand.
#[derive(Drop)]
pub struct Scanned {
    /// The entries by rising place.
    pub entries: Vec<AtPlace>,
    /// Whether the end was reached.
    pub whole: bool,
}

impl Scanned {
    /// Of no words at all.
    pub fn nothing(alloc: Global) -> Scanned
        ensures { IsScan result ended }
    {
        Scanned {
            entries: Vec::new(alloc),
            whole: true,
        }
    }

    /// Forgets what was scanned. The list keeps its room, so one serves many payloads.
    pub fn clear(&mut self)
        ensures { IsScan self.new ended }
    {
        self.entries.clear();
        self.whole = true;
    }

    /// What stands in a payload, in place of what was scanned before.
    pub fn scan(&mut self, payload: &[u64]) -> Result<(), Memory>
        ensures { OnOk result (IsScan self.new (scan_of payload.now)) }
    {
        self.clear();
        let mut padded = false;
        let mut place = 0;
        while place < payload.len() {
            match what_follows(payload, place, padded) {
                Next::Stop => {
                    self.whole = false;
                    return Ok(());
                }
                Next::Zero => {
                    padded = true;
                    place += 1;
                }
                Next::Found { name, left } => {
                    self.entries.push(AtPlace {
                        place: place as u64,
                        name,
                    })?;
                    padded = false;
                    place = place_behind(payload, place, left);
                }
            }
        }
        Ok(())
    }
}
