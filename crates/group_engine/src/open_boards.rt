// The opening of an engine: a board for each group, and nothing given yet.
ghost use Rattle.std.specs.Prelude.{◌≡◌, ◌/◌, ◌<◌, length, IfOk};
ghost use Rattle.chunk_map.specs.Layouts.{layout_of};
ghost use Rattle.store_image.specs.Soundness as images;
ghost use Rattle.group_laws.specs.OpeningImages.{opened};
ghost use Rattle.group_board.specs.Journals.{image_of, place_in, state};
ghost use Rattle.engine_laws.specs.Stands.{Origin, opening};
ghost use Rattle.engine_core.specs.Seated.{AreSeated};
ghost use Rattle.group_engine.specs.Shows.{Shows, AreOpened, AreEmpty};

use crate::engine::Engine;
use chunk_map::Geometry;
use engine_core::found_region::{Numbered, Of};
use engine_core::run_report::Report;
use engine_core::worker_calls::CoreWorker;
use fs_model::{Memory, Request};
use group_board::{LocalBoard, Opening};
use std::alloc::Global;
use std::collections::VecDeque;
use std::marker::Brand;

fn open_one<O: Opening, N: Numbered>(
    alloc: Global,
    members: u32,
    group: u32,
) -> Result<LocalBoard, Memory>
    requires number { N.number ≡ group }
    requires sound { images.IsSound O.bytes (image_of O.words) }
    requires group { group
        < (layout_of (image_of O.words)).cores / (layout_of (image_of O.words)).group }
    requires members { (layout_of (image_of O.words)).group ≡ members }
    ensures opened { IfOk result (λ b.
        state b.keeper.me.0 ≡ opened (place_in group O.words) (image_of O.words)) }
{
    LocalBoard::open::<Of<O, N>>(alloc, members)
}

fn open_boards<O: Opening>(
    alloc: Global,
    members: u32,
    groups: u32,
) -> Result<Vec<LocalBoard>, Memory>
    requires sound { images.IsSound O.bytes (image_of O.words) }
    requires groups { (layout_of (image_of O.words)).cores
        / (layout_of (image_of O.words)).group ≡ groups }
    requires members { (layout_of (image_of O.words)).group ≡ members }
    ensures length { IfOk result (λ v. length v.items ≡ groups) }
    ensures opened { IfOk result (λ v. AreOpened O.words v.items) }
{
    let mut boards = Vec::new(alloc);
    for group in 0..groups {
        let board = open_one::<O, Brand>(alloc, members, group)?;
        boards.push(board)?;
    }
    Ok(boards)
}

fn open_backlogs(alloc: Global, cores: u32) -> Result<Vec<VecDeque<(u64, Request)>>, Memory>
    ensures length { IfOk result (λ v. length v.items ≡ cores) }
    ensures empty { IfOk result (λ v. AreEmpty v.items (λ q. q.items)) }
{
    let mut backlogs = Vec::new(alloc);
    for core in 0..cores {
        backlogs.push(VecDeque::new(alloc))?;
    }
    Ok(backlogs)
}

/// The engine of a region that was found so, with a worker for each core. It shows the first state of a run, where the
/// workers are seated in it.
pub fn open<O: Opening, W: CoreWorker + Drop>(
    alloc: Global,
    layout: Geometry,
    workers: Vec<W>,
) -> Result<Engine<W>, Memory>
    requires sound { images.IsSound O.bytes (image_of O.words) }
    requires layout { layout_of (image_of O.words) ≡ layout }
    requires group { 0 < layout.group }
    requires workers { length workers.items ≡ layout.cores }
    ensures layout { IfOk result (λ x. x.layout ≡ layout) }
    ensures workers { IfOk result (λ x. x.workers.items ≡ workers.items) }
    ensures opened { IfOk result (λ x. (o : Origin) → o.found ≡ image_of O.words
        → AreSeated W.hands W.answers W.stands W.fair W.room W.leads workers.items (opening o)
        → Shows W.hands W.answers W.stands W.fair W.room W.leads (λ q. q.items) o.region x.layout
        x.workers.items x.boards.items x.backlogs.items x.answers.items (opening o)) }
{
    let boards = open_boards::<O>(alloc, layout.group, layout.cores / layout.group)?;
    let backlogs = open_backlogs(alloc, layout.cores)?;
    Ok(Engine {
        layout,
        workers,
        boards,
        backlogs,
        answers: Vec::new(alloc),
        report: Report::new(alloc),
    })
}
