// A version and a home in three bytes: the version's lower two bytes, and a byte with what is left of it and the home.
ghost use Rattle.std.specs.Prelude.{◌≡◌, IfSome};
ghost use Rattle.core_index.specs.Short.{version_of, home_of, AreShort};

use fs_model::Version;

/// So many versions have the same upper half.
pub const LOW_VERSIONS: u32 = 65_536;
/// The versions below it fit: those of all entries do.
const VERSIONS: u32 = 1_048_576;
/// The homes below it fit: as many as a region has cores at most.
pub const HOMES: u32 = 16;

/// The version.
pub fn version_of(low: u16, rest: u8) -> Version
    ensures { result ≡ version_of low rest }
{
    u32::from(low) + LOW_VERSIONS * (u32::from(rest) / HOMES)
}

/// The home.
pub fn home_of(rest: u8) -> u32
    ensures { result ≡ home_of rest }
{
    u32::from(rest) % HOMES
}

/// Both in three bytes, where they fit.
pub fn short_of(version: Version, home: u32) -> Option<(u16, u8)>
    ensures { IfSome result (AreShort version home) }
{
    if version >= VERSIONS || home >= HOMES {
        return None;
    }
    Some((
        (version % LOW_VERSIONS) as u16,
        (version / LOW_VERSIONS * HOMES + home) as u8,
    ))
}
