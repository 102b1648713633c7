// Two places for entries of one key, of which the first is below the second.
ghost use Rattle.std.specs.Prelude.{◌≡◌, ◌<◌, ◌≤◌, ◌++◌, ◌∷◌, [], length, false, IfSome};
ghost use Rattle.core_index.specs.Records.{list_of, standing_at, standing_with, stands_alone, with_told, others, by_version};
ghost use Rattle.core_index.specs.Pairs.{in_pair, top_of, IsRising, has_version, told_by, rid_of, lacks_others};

use crate::types::{Pair, Standee, StandingEntry};
use fs_model::Version;

fn untold(standee: &Standee) -> StandingEntry
    ensures { result ≡ standing_with standee.now.version standee.now.home false }
{
    StandingEntry {
        version: standee.version,
        home: standee.home,
        told: false,
    }
}

fn size(place: Option<StandingEntry>) -> u32
    ensures size { result ≡ length (list_of place) }
    ensures small { result ≤ 1 }
{
    match place {
        None => 0,
        Some(_) => 1,
    }
}

fn has_version(place: Option<StandingEntry>, version: Version) -> bool
    ensures { result ≡ has_version place version }
{
    match place {
        None => false,
        Some(entry) => entry.version == version,
    }
}

fn lacks_others(place: Option<StandingEntry>, version: Version) -> bool
    ensures { result ≡ lacks_others place version }
{
    match place {
        None => true,
        Some(entry) => entry.version == version,
    }
}

fn told_by(place: Option<StandingEntry>, version: Version) -> Option<StandingEntry>
    ensures { result ≡ told_by place version }
{
    match place {
        None => None,
        Some(entry) => {
            let told = entry.told || entry.version == version;
            Some(StandingEntry {
                version: entry.version,
                home: entry.home,
                told,
            })
        }
    }
}

fn rid_of(place: Option<StandingEntry>, version: Version) -> Option<StandingEntry>
    ensures { result ≡ rid_of place version }
{
    if has_version(place, version) {
        None
    } else {
        place
    }
}

// Of two entries of one version the first counts.
fn in_order(one: &Standee, two: &Standee) -> Pair
    ensures items { in_pair result ≡ by_version (one.now ∷ two.now ∷ []) }
    ensures rising { IsRising result }
{
    if one.version < two.version {
        return Pair {
            first: Some(untold(one)),
            second: Some(untold(two)),
        };
    }
    if one.version == two.version {
        return Pair {
            first: Some(untold(one)),
            second: None,
        };
    }
    Pair {
        first: Some(untold(two)),
        second: Some(untold(one)),
    }
}

impl Pair {
    /// No entries.
    pub fn empty() -> Pair
        ensures items { in_pair result ≡ [] }
        ensures rising { IsRising result }
        ensures top { top_of result ≡ 0 }
    {
        Pair {
            first: None,
            second: None,
        }
    }

    /// The entries of a start, where they are no more than two.
    pub fn of(standees: &[Standee]) -> Option<Pair>
        ensures items { IfSome result (λ pair. in_pair pair ≡ by_version standees.now) }
        ensures rising { IfSome result IsRising }
    {
        match standees {
            [] => Some(Pair::empty()),
            [only] => Some(Pair {
                first: Some(untold(only)),
                second: None,
            }),
            [one, two] => Some(in_order(one, two)),
            _ => None,
        }
    }

    /// How many stand.
    pub fn len(self) -> u32
        ensures { result ≡ length (in_pair self) }
    {
        size(self.first) + size(self.second)
    }

    /// The greatest version, or 0 where there is none.
    pub fn top(self) -> Version
        ensures { result ≡ top_of self }
    {
        match (self.first, self.second) {
            (_, Some(entry)) => entry.version,
            (Some(entry), None) => entry.version,
            (None, None) => 0,
        }
    }

    /// The entry of a version.
    pub fn find(self, version: Version) -> Option<StandingEntry>
        ensures { result ≡ standing_at (in_pair self) version }
    {
        if has_version(self.first, version) {
            return self.first;
        }
        if has_version(self.second, version) {
            return self.second;
        }
        None
    }

    /// Whether no other version stands.
    pub fn stands_alone(self, version: Version) -> bool
        ensures { result ≡ stands_alone (in_pair self) version }
    {
        lacks_others(self.first, version) && lacks_others(self.second, version)
    }

    /// With an entry of a later version.
    pub fn with(self, version: Version, home: u32) -> Pair
        requires later { top_of self < version }
        requires room { length (in_pair self) < 2 }
        ensures items { in_pair result ≡ in_pair self ++ standing_with version home false ∷ [] }
        ensures rising { IsRising result }
        ensures top { top_of result ≡ version }
    {
        let more = Some(untold(&Standee { version, home }));
        match (self.first, self.second) {
            (None, None) => Pair {
                first: more,
                second: None,
            },
            (Some(_), None) => Pair {
                first: self.first,
                second: more,
            },
            (_, Some(_)) => Pair {
                first: self.second,
                second: more,
            },
        }
    }

    /// Once the death of a version was told.
    pub fn told(self, version: Version) -> Pair
        requires { IsRising self }
        ensures items { in_pair result ≡ with_told (in_pair self) version }
        ensures rising { IsRising result }
        ensures top { top_of result ≡ top_of self }
    {
        Pair {
            first: told_by(self.first, version),
            second: told_by(self.second, version),
        }
    }

    /// Without a version.
    pub fn without(self, version: Version) -> Pair
        requires { IsRising self }
        ensures items { in_pair result ≡ others version (in_pair self) }
        ensures rising { IsRising result }
        ensures top { top_of result ≤ top_of self }
    {
        Pair {
            first: rid_of(self.first, version),
            second: rid_of(self.second, version),
        }
    }
}
