// Who is told how a run goes on.

/// Is told while a run goes on how many of its requests are answered, in the thread that called it. What it makes of
/// that has nothing to do with the run.
pub trait Watch {
    /// So many requests are answered by now, from the first on: those of whole windows.
    fn answered(&mut self, count: u64);

    /// Something else is written next: a window's replies, or what is written behind the run.
    fn pauses(&mut self);
}

/// Nobody is told.
#[derive(Clone, Copy, Debug)]
pub struct Unwatched;

impl Watch for Unwatched {
    fn answered(&mut self, _count: u64) {}

    fn pauses(&mut self) {}
}
