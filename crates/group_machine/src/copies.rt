// Copies of entries.
ghost use Rattle.std.specs.Prelude.{◌≡◌, IfOk};

use fs_model::Memory;
use log_entry::entry::{Body, Entry};
use std::alloc::Global;

fn copy_body(alloc: Global, body: &Body) -> Result<Body, Memory>
    ensures { IfOk result (λ b. b ≡ body.now) }
{
    match body {
        Body::Pointer(pointer) => Ok(Body::Pointer(*pointer)),
        Body::Embedded(value) => {
            let value = value.copy(alloc)?;
            Ok(Body::Embedded(value))
        }
        Body::Tombstone => Ok(Body::Tombstone),
    }
}

/// A copy of an entry.
pub fn copy_entry(alloc: Global, entry: &Entry) -> Result<Entry, Memory>
    ensures { IfOk result (λ e. e ≡ entry.now) }
{
    let body = copy_body(alloc, &entry.body)?;
    Ok(Entry {
        key: entry.key,
        version: entry.version,
        body,
    })
}
