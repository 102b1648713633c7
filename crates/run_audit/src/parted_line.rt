// The first line of a text.
ghost use Rattle.std.specs.Prelude.{◌<◌, ◌+◌, ◌^◌, ◌≡◌, length, if◌then◌else◌};
ghost use Rattle.run_audit.specs.Parting.{IsParted};

use memchr::memchr;

/// The first line of a text, without its newline.
#[derive(Clone, Copy)]
pub struct PartedLine<'a> {
    /// Its bytes.
    pub text: &'a [u8],
    /// Whether it has a newline.
    pub ended: bool,
    /// What follows it.
    pub rest: &'a [u8],
}

/// Parts a text that isn't empty after its first line.
pub fn first_line(bytes: &[u8]) -> PartedLine<'_>
    requires { 0 < length bytes.now }
    ensures parted { IsParted bytes.now result }
    ensures shorter { length result.rest.now < length bytes.now }
    ensures size { length result.text.now + (if result.ended then 1 else 0)
        + length result.rest.now ≡ length bytes.now }
{
    match memchr(b'\n', bytes) {
        Some(end) => PartedLine {
            text: &bytes[..end],
            ended: true,
            rest: &bytes[end + 1..],
        },
        None => PartedLine {
            text: bytes,
            ended: false,
            rest: &bytes[bytes.len()..],
        },
    }
}

impl PartedLine<'_> {
    /// How many bytes it takes with its newline.
    pub fn size(&self) -> u64
        requires { length self.now.text.now < 2 ^ 63 }
        ensures { result ≡ length self.now.text.now + (if self.now.ended then 1 else 0) }
    {
        self.text.len() as u64 + u64::from(self.ended)
    }
}
