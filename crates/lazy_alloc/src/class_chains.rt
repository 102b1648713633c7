// The chunks of each class that have a free block, in a chain by rising number.
ghost use Rattle.std.specs.Prelude.{◌≡◌, ℕ, ◌<◌, ◌≤◌, Bool, true, false, length, replicate, slice_set, IfOk, MatchOption, Some, None};
ghost use Rattle.lazy_alloc.specs.Chains.{IsLinked, Lacks, Holds, InSome, Adds, Removes, Same, link_at};

use fs_model::Memory;
use std::alloc::Global;

/// The first chunk of each class's chain, and the next one of each chunk.
#[derive(Drop)]
pub struct Chains {
    firsts: Vec<Option<u32>>,
    nexts: Vec<Option<u32>>,
}

/// So many links that lead nowhere.
pub fn no_links(alloc: Global, count: usize) -> Result<Vec<Option<u32>>, Memory>
    ensures { IfOk result (λ v. v.items ≡ replicate count None) }
{
    let mut links = Vec::with_capacity(alloc, count)?;
    for _ in 0..count {
        links.push(None)?;
    }
    Ok(links)
}

impl Chains {
    /// Chains with nothing in them.
    pub fn empty(alloc: Global, classes: usize, chunks: usize) -> Result<Chains, Memory>
        ensures firsts { IfOk result (λ a. a.firsts.items ≡ replicate classes None) }
        ensures nexts { IfOk result (λ a. a.nexts.items ≡ replicate chunks None) }
    {
        Ok(Chains {
            firsts: no_links(alloc, classes)?,
            nexts: no_links(alloc, chunks)?,
        })
    }

    /// The first chunk of a class's chain.
    pub fn first(&self, class: u32) -> Option<u32>
        requires { class < length self.now.firsts.items }
        ensures { result ≡ link_at self.now.firsts.items class }
    {
        self.firsts[class as usize]
    }

    fn next(&self, chunk: u32) -> Option<u32>
        requires { chunk < length self.now.nexts.items }
        ensures { result ≡ link_at self.now.nexts.items chunk }
    {
        self.nexts[chunk as usize]
    }

    fn set_first(&mut self, class: u32, link: Option<u32>)
        requires { class < length self.old.firsts.items }
        ensures firsts { self.new.firsts.items ≡ slice_set self.old.firsts.items class link }
        ensures nexts { self.new.nexts.items ≡ self.old.nexts.items }
    {
        self.firsts[class as usize] = link;
    }

    fn set_next(&mut self, chunk: u32, link: Option<u32>)
        requires { chunk < length self.old.nexts.items }
        ensures firsts { self.new.firsts.items ≡ self.old.firsts.items }
        ensures nexts { self.new.nexts.items ≡ slice_set self.old.nexts.items chunk link }
    {
        self.nexts[chunk as usize] = link;
    }

    // The first chunk of a class's chain, where it is below one.
    fn first_below(&self, class: u32, chunk: u32) -> Option<u32>
        requires { class < length self.now.firsts.items }
        ensures { MatchOption result ((f : ℕ) → link_at self.now.firsts.items class ≡ Some f
            → chunk ≤ f) (λ f. (link_at self.now.firsts.items class ≡ Some f) × (f < chunk)) }
    {
        match self.first(class) {
            None => None,
            Some(first) => { if first < chunk { Some(first) } else { None } }
        }
    }

    // The last chunk below one, of the chain from a lower one on.
    fn before(&self, first: u32, chunk: u32) -> u32
        requires holds { InSome self.now.firsts.items self.now.nexts.items first }
        requires first { first < chunk }
        ensures below { result < chunk }
        ensures last { (k : ℕ) → link_at self.now.nexts.items result ≡ Some k → chunk ≤ k }
        ensures in_chain { (has : ℕ → ℕ → Bool) (c : ℕ)
            → IsLinked self.now.firsts.items self.now.nexts.items has → has c first ≡ true
            → has c result ≡ true }
    {
        let mut at = first;
        loop {
            match self.next(at) {
                Some(next) if next < chunk => at = next,
                _ => return at,
            }
        }
    }

    /// Puts a chunk into a class's chain.
    pub fn link(&mut self, class: u32, chunk: u32)
        requires class { class < length self.old.firsts.items }
        requires chunk { chunk < length self.old.nexts.items }
        requires lacks { Lacks self.old.firsts.items self.old.nexts.items chunk }
        ensures firsts { length self.new.firsts.items ≡ length self.old.firsts.items }
        ensures nexts { length self.new.nexts.items ≡ length self.old.nexts.items }
        ensures linked { (has has' : ℕ → ℕ → Bool)
            → IsLinked self.old.firsts.items self.old.nexts.items has → Adds has has' class chunk
            → IsLinked self.new.firsts.items self.new.nexts.items has' }
    {
        match self.first_below(class, chunk) {
            Some(first) => {
                let at = self.before(first, chunk);
                self.set_next(chunk, self.next(at));
                self.set_next(at, Some(chunk));
            }
            None => {
                self.set_next(chunk, self.first(class));
                self.set_first(class, Some(chunk));
            }
        }
    }

    /// Takes a chunk out of a class's chain.
    pub fn unlink(&mut self, class: u32, chunk: u32)
        requires class { class < length self.old.firsts.items }
        requires holds { Holds self.old.firsts.items self.old.nexts.items class chunk }
        ensures firsts { length self.new.firsts.items ≡ length self.old.firsts.items }
        ensures nexts { length self.new.nexts.items ≡ length self.old.nexts.items }
        ensures linked { (has has' : ℕ → ℕ → Bool)
            → IsLinked self.old.firsts.items self.old.nexts.items has → Removes has has' class chunk
            → IsLinked self.new.firsts.items self.new.nexts.items has' }
    {
        let next = self.next(chunk);
        match self.first_below(class, chunk) {
            Some(first) => {
                let at = self.before(first, chunk);
                self.set_next(at, next);
            }
            None => self.set_first(class, next),
        }
    }

    /// The same where `on` holds, and nothing where it doesn't.
    pub fn link_if(&mut self, class: u32, chunk: u32, on: bool)
        requires class { class < length self.old.firsts.items }
        requires chunk { chunk < length self.old.nexts.items }
        requires lacks { on ≡ true → Lacks self.old.firsts.items self.old.nexts.items chunk }
        ensures firsts { length self.new.firsts.items ≡ length self.old.firsts.items }
        ensures nexts { length self.new.nexts.items ≡ length self.old.nexts.items }
        ensures linked { (has has' : ℕ → ℕ → Bool)
            → IsLinked self.old.firsts.items self.old.nexts.items has
            → (on ≡ true → Adds has has' class chunk) → (on ≡ false → Same has has')
            → IsLinked self.new.firsts.items self.new.nexts.items has' }
    {
        if on {
            self.link(class, chunk);
        }
    }

    /// Takes a chunk out of the chain of its class, where `on` holds.
    pub fn unlink_if(&mut self, class: u32, chunk: u32, on: bool)
        requires class { class < length self.old.firsts.items }
        requires holds { on ≡ true → Holds self.old.firsts.items self.old.nexts.items class chunk }
        ensures firsts { length self.new.firsts.items ≡ length self.old.firsts.items }
        ensures nexts { length self.new.nexts.items ≡ length self.old.nexts.items }
        ensures linked { (has has' : ℕ → ℕ → Bool)
            → IsLinked self.old.firsts.items self.old.nexts.items has
            → (on ≡ true → Removes has has' class chunk) → (on ≡ false → Same has has')
            → IsLinked self.new.firsts.items self.new.nexts.items has' }
    {
        if on {
            self.unlink(class, chunk);
        }
    }
}
