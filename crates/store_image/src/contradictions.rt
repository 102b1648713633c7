// Two entries that can't both be true.
ghost use Rattle.std.specs.Prelude.{◌≡◌};
ghost use Rattle.store_image.specs.Soundness.{same_body, contradicts};

use crate::types::PlacedEntry;
use log_entry::entry::Body;

fn same_body(a: &Body, b: &Body) -> bool
    ensures { result ≡ same_body a.now b.now }
{
    match a {
        Body::Pointer(p) => match b {
            Body::Pointer(q) => *p == *q,
            _ => false,
        },
        Body::Embedded(u) => match b {
            Body::Embedded(v) => u.bytes() == v.bytes(),
            _ => false,
        },
        Body::Tombstone => match b {
            Body::Tombstone => true,
            _ => false,
        },
    }
}

/// Whether two entries have one key and version, but not one body and part.
pub fn contradicts(x: &PlacedEntry, y: &PlacedEntry) -> bool
    ensures { result ≡ contradicts x.now y.now }
{
    x.entry.key == y.entry.key
        && x.entry.version == y.entry.version
        && !(same_body(&x.entry.body, &y.entry.body) && x.core == y.core)
}
