// The cells of neighbouring words, brought forward by one step after another.
ghost use Rattle.std.specs.Prelude.{◌≡◌, ◌⊎◌, ℕ, ◌+◌, ◌*◌, ◌^◌, ◌≤◌, ◌<◌, [], List, length, slice_index, true, false, take, IfOk, OnOk};
ghost use Rattle.pm_region.specs.Cell.{Cell, certain, HasValue};
ghost use Rattle.region_memory.specs.Image.{cell_of_data};
ghost use Rattle.region_memory.specs.CellLists.{cell_in, HasOne, ActsAt, Acts, AllAct, AreOpen};
ghost use Rattle.region_memory.specs.Journals.{act, cell_after};
ghost use Rattle.region_memory.specs.declared.step.Step.TheVariants.{Store, Flush, Fence};

use crate::crash_image::CellData;
use crate::step::Step;
use pm_region::LINE_WORDS;
use std::alloc::{AllocError, Global};

/// The cells of words that were these at first, from `first` on, after these steps. A fence looks at the words that
/// are not certain before it, and every other step at eight words at most.
pub fn cells_after(
    alloc: Global,
    first: u64,
    start: &[u64],
    steps: &[Step],
) -> Result<Vec<CellData>, AllocError>
    requires fits { first + length start.now < 2 ^ 64 }
    ensures count { IfOk result (λ cells. length cells.items ≡ length start.now) }
    ensures each { IfOk result (λ cells. (k : ℕ) → k < length start.now
        → cell_in cells.items k ≡ cell_after steps.now (first + k)
        (certain (slice_index start.now k))) }
{
    let mut cells = certain_cells(alloc, start)?;
    let mut open_places = Vec::new(alloc);
    for step in steps {
        take_step(alloc, &mut cells, &mut open_places, first, *step)?;
    }
    Ok(cells)
}

fn certain_cells(alloc: Global, start: &[u64]) -> Result<Vec<CellData>, AllocError>
    ensures count { IfOk result (λ cells. length cells.items ≡ length start.now) }
    ensures each { IfOk result (λ cells. (k : ℕ) → k < length start.now → cell_in cells.items k
        ≡ certain (slice_index start.now k)) }
{
    let mut cells = Vec::with_capacity(alloc, start.len())?;
    for value in start {
        cells.push(CellData::new(alloc, *value))?;
    }
    Ok(cells)
}

// All cells take one step. `open_places` are the places of those that may have more than one value.
fn take_step(
    alloc: Global,
    cells: &mut Vec<CellData>,
    open_places: &mut Vec<usize>,
    first: u64,
    step: Step,
) -> Result<(), AllocError>
    requires fits { first + length cells.old.items < 2 ^ 64 }
    requires places { AreOpen cells.old.items open_places.old.items }
    ensures cells { OnOk result (AllAct step first cells.old.items cells.new.items) }
    ensures places { OnOk result (AreOpen cells.new.items open_places.new.items) }
{
    match step {
        Step::Store { at, .. } => take_store(cells, open_places, first, at, step),
        Step::Flush { line } => take_flush(cells, first, line, step),
        Step::Fence { .. } => {
            take_fence(cells, open_places, first, step)?;
            *open_places = still_open(alloc, cells, open_places)?;
            Ok(())
        }
        Step::Nothing => Ok(()),
    }
}

fn take_store(
    cells: &mut Vec<CellData>,
    open_places: &mut Vec<usize>,
    first: u64,
    at: u64,
    step: Step,
) -> Result<(), AllocError>
    requires fits { first + length cells.old.items < 2 ^ 64 }
    requires places { AreOpen cells.old.items open_places.old.items }
    requires step { (value : ℕ) × (step ≡ Store at value) }
    ensures cells { OnOk result (AllAct step first cells.old.items cells.new.items) }
    ensures places { OnOk result (AreOpen cells.new.items open_places.new.items) }
{
    if at < first || at - first >= cells.len() as u64 {
        return Ok(());
    }
    let k = (at - first) as usize;
    open_place(cells, open_places, k)?;
    act_at(cells, first, k, step)
}

// Sees that this place is among the open ones.
fn open_place(cells: &[CellData], open_places: &mut Vec<usize>, k: usize) -> Result<(), AllocError>
    requires within { k < length cells.now }
    requires places { AreOpen cells.now open_places.old.items }
    ensures places { OnOk result (AreOpen cells.now open_places.new.items) }
    ensures one { OnOk result (HasValue open_places.new.items k) }
{
    if cells[k].has_one() {
        open_places.push(k)?;
    }
    Ok(())
}

fn take_flush(
    cells: &mut Vec<CellData>,
    first: u64,
    line: u64,
    step: Step,
) -> Result<(), AllocError>
    requires fits { first + length cells.old.items < 2 ^ 64 }
    requires step { step ≡ Flush line }
    ensures { OnOk result (AllAct step first cells.old.items cells.new.items) }
{
    let from = line.saturating_mul(LINE_WORDS).max(first);
    let end = line
        .saturating_mul(LINE_WORDS)
        .saturating_add(LINE_WORDS)
        .min(first + cells.len() as u64);
    for w in from..end {
        act_at(cells, first, (w - first) as usize, step)?;
    }
    Ok(())
}

// The cells that may have more than one value take a fence; it changes no other.
fn take_fence(
    cells: &mut Vec<CellData>,
    open_places: &[usize],
    first: u64,
    step: Step,
) -> Result<(), AllocError>
    requires fits { first + length cells.old.items < 2 ^ 64 }
    requires places { AreOpen cells.old.items open_places.now }
    requires step { (from : ℕ) × (words : ℕ) × (step ≡ Fence from words) }
    ensures { OnOk result (AllAct step first cells.old.items cells.new.items) }
{
    for k in open_places {
        act_at(cells, first, *k, step)?;
    }
    Ok(())
}

// The places of the cells that have more than one value.
fn still_open(
    alloc: Global,
    cells: &[CellData],
    open_places: &[usize],
) -> Result<Vec<usize>, AllocError>
    requires { AreOpen cells.now open_places.now }
    ensures { IfOk result (λ still. AreOpen cells.now still.items) }
{
    let mut still = Vec::with_capacity(alloc, open_places.len())?;
    for k in open_places {
        if !cells[*k].has_one() {
            still.push(*k)?;
        }
    }
    Ok(still)
}

fn act_at(cells: &mut Vec<CellData>, first: u64, k: usize, step: Step) -> Result<(), AllocError>
    requires within { k < length cells.old.items }
    requires fits { first + length cells.old.items < 2 ^ 64 }
    ensures { OnOk result (ActsAt step first cells.old.items cells.new.items k) }
{
    cells[k].act(step, first + k as u64)
}
