// The opening of an engine on a region that recovery read.
ghost use Rattle.std.specs.Prelude.{◌≡◌, ◌<◌, length, IfOk};
ghost use Rattle.chunk_map.specs.Layouts.{layout_of};
ghost use Rattle.store_image.specs.Soundness as images;
ghost use Rattle.group_board.specs.Journals.{image_of};
ghost use Rattle.core_worker.specs.Beginning.{answers_of};
ghost use Rattle.core_worker.specs.Left.{fair};
ghost use Rattle.core_worker.specs.WorkerMoves.{hands_of};
ghost use Rattle.engine_laws.specs.Stands.{Origin, opening};
ghost use Rattle.engine_core.specs.RunStarts.{StandsAsFound, BeginsAt, AreNew};
ghost use Rattle.engine_core.specs.Seated.{AreSeated};
ghost use Rattle.group_engine.specs.Shows.{Shows};
ghost use Rattle.engine_core.specs.Working.{IsMember, may_take, leads};

use crate::engine::Engine;
use crate::open_boards::open;
use chunk_map::Geometry;
use core_worker::Worker;
use engine_core::found_region::{FoundRegion, On};
use engine_core::open_workers::open_workers;
use fs_model::Memory;
use pm_region::ReadRegion;
use recover::Recovered;
use std::alloc::Global;
use std::marker::Brand;

// The engine on those words. The region is passed since what is known of them must be said of what is passed.
fn open_on<F: FoundRegion, R: ReadRegion>(
    alloc: Global,
    _region: &R,
    layout: Geometry,
    workers: Vec<Worker>,
) -> Result<Engine<Worker>, Memory>
    requires sound { images.IsSound F.bytes (image_of F.words) }
    requires layout { layout_of (image_of F.words) ≡ layout }
    requires group { 0 < layout.group }
    requires workers { length workers.items ≡ layout.cores }
    ensures layout { IfOk result (λ x. x.layout ≡ layout) }
    ensures workers { IfOk result (λ x. x.workers.items ≡ workers.items) }
    ensures opened { IfOk result (λ x. (o : Origin) → o.found ≡ image_of F.words
        → AreSeated hands_of answers_of IsMember fair may_take leads workers.items (opening o)
        → Shows hands_of answers_of IsMember fair may_take leads (λ q. q.items) o.region x.layout
        x.workers.items x.boards.items x.backlogs.items x.answers.items (opening o)) }
{
    open::<On<F>, Worker>(alloc, layout, workers)
}

impl Engine<Worker> {
    /// The engine of a region that stands as recovery found it: it shows the first state of a run that begins there.
    /// Nothing is written.
    pub fn open<R: ReadRegion>(
        alloc: Global,
        region: &R,
        recovered: Recovered,
    ) -> Result<Engine<Worker>, Memory>
        requires region { StandsAsFound (R.state region.now) (R.word region.now) recovered }
        ensures layout { IfOk result (λ x. x.layout ≡ recovered.layout) }
        ensures new { IfOk result (λ x. AreNew recovered.starts.items recovered.layout
            x.workers.items) }
        ensures opened { IfOk result (λ x. (o : Origin)
            × BeginsAt (R.state region.now) (R.word region.now) o
            × Shows hands_of answers_of IsMember fair may_take leads (λ q. q.items)
            (R.state region.now) x.layout x.workers.items x.boards.items x.backlogs.items
            x.answers.items (opening o)) }
    {
        let geometry = recovered.layout.geometry();
        let workers = open_workers(alloc, recovered.layout, recovered.starts)?;
        open_on::<Brand, R>(alloc, region, geometry, workers)
    }
}
