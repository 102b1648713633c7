// A set of the lines of a file.
ghost use Rattle.std.specs.Prelude.{◌≡◌, ℕ, ◌+◌, ◌≤◌, ◌<◌, ◌^◌, true, false, [], ◌∷◌, ◌++◌, length, slice_index, vec_capacity, IfOk};
ghost use Rattle.region_file.specs.Marks.{KeepsLines, is_marked};

use std::alloc::{AllocError, Global};

/// The lines below a number, by a mark for each one and by their list, which has room for all of them: a line that is
/// in the set stands once in the list. To add a line takes no memory.
#[derive(Drop)]
pub struct LineSet {
    /// By the line's number: whether it is in the set.
    pub marks: Vec<bool>,
    /// The lines of the set, each once, in any order.
    pub lines: Vec<u32>,
    ghost keeps: { KeepsLines marks.items lines.items },
    ghost room: { length marks.items ≤ vec_capacity lines },
    ghost few: { length marks.items < 2 ^ 32 },
}

impl LineSet {
    ghost use Rattle.region_file.specs.Lines.{HasNone, Adds, AddsAll};

    /// No line of no lines.
    pub fn none(alloc: Global) -> LineSet
        ensures { HasNone 0 result }
    {
        LineSet {
            marks: Vec::new(alloc),
            lines: Vec::new(alloc),
        }
    }

    /// No line of so many.
    pub fn new(alloc: Global, count: u32) -> Result<LineSet, AllocError>
        ensures { IfOk result (HasNone count) }
    {
        let marks = vec![in alloc; false; count as usize]?;
        let lines = Vec::with_capacity(alloc, count as usize)?;
        Ok(LineSet { marks, lines })
    }

    /// Adds a line. It takes no memory.
    pub fn insert(&mut self, line: u32)
        requires { line < length self.old.marks.items }
        ensures { Adds self.old self.new line }
    {
        if self.marks[line as usize] {
            return;
        }
        self.marks[line as usize] = true;
        put(&mut self.lines, line);
    }

    /// Adds the lines of another set, each at a place so much higher.
    pub fn insert_all(&mut self, other: &LineSet, by: u32)
        requires { by + length other.now.marks.items ≤ length self.old.marks.items }
        ensures { AddsAll self.old self.new other.now by }
    {
        for line in &other.lines {
            self.insert(by + *line);
        }
    }

    /// Sorts the list, so that neighbours stand together.
    pub fn sort(&mut self)
        ensures { self.new.marks ≡ self.old.marks }
    {
        self.lines.sort_unstable();
    }

    /// Takes all lines out, at the cost of those that are in.
    pub fn clear(&mut self)
        ensures { HasNone (length self.old.marks.items) self.new }
    {
        unmark(&mut self.marks, &self.lines);
        self.lines.clear();
    }
}

// Takes the marks of these lines away.
fn unmark(marks: &mut Vec<bool>, lines: &[u32])
    requires { (j : ℕ) → j < length lines.now → slice_index lines.now j < length marks.old.items }
    ensures count { length marks.new.items ≡ length marks.old.items }
    ensures kept { (k : ℕ) → is_marked marks.new.items k ≡ true → is_marked marks.old.items k
        ≡ true }
    ensures gone { (j : ℕ) → j < length lines.now
        → is_marked marks.new.items (slice_index lines.now j) ≡ false }
{
    for line in lines {
        marks[*line as usize] = false;
    }
}

// Adds a line where there is room.
fn put(lines: &mut Vec<u32>, line: u32)
    requires { length lines.old.items < vec_capacity lines.old }
    ensures items { lines.new.items ≡ lines.old.items ++ line ∷ [] }
    ensures room { vec_capacity lines.old ≤ vec_capacity lines.new }
{
    match lines.push(line) {
        Ok(()) => {}
        Err(_) => unreachable!(),
    }
}
