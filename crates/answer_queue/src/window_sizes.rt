// How much a window has.
/// The most answers that a window has.
pub const WINDOW: usize = 4096;

/// The parts of the right to know what all passes did: a pass that has them all knows it.
pub const PARTS: u64 = 1024;
