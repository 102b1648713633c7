// The pair of a key that is live.
ghost use Rattle.std.specs.Prelude.{◌≡◌, ◌++◌, [], IfOk};
ghost use Rattle.store_image.specs.Listing.{with_pair};

use fs_model::{Memory, Pair, Value};

/// Appends the key's pair, where it is live.
pub fn push_pair(pairs: &mut Vec<Pair>, key: u64, value: Option<Value>) -> Result<(), Memory>
    ensures { IfOk result (λ _. pairs.new.items ≡ pairs.old.items ++ with_pair key value []) }
{
    if let Some(value) = value {
        pairs.push(Pair { key, value })?;
    }
    Ok(())
}
