// The tables of a run's groups, with a token for each of their members.
ghost use Rattle.std.specs.Prelude.{◌≡◌, ℕ, ◌/◌, ◌<◌, ◌++◌, length, IfOk, OnOk};
ghost use Rattle.chunk_map.specs.Layouts.{layout_of};
ghost use Rattle.store_image.specs.Soundness as images;
ghost use Rattle.group_board.specs.Journals.{image_of, place_in};
ghost use Rattle.group_laws.specs.OpeningImages.{opened};
ghost use Rattle.atomic_board.specs.Deeds.{began};
ghost use Rattle.atomic_board.specs.GroupTables.{origin_of};
ghost use Rattle.engine_laws.specs.Origins.{Origin};
ghost use Rattle.engine_core.specs.RunStarts.{StandsAsFound, BeginsAt};
ghost use Rattle.thread_engine.specs.TableTokens.{AddsTokens, HaveTokens};

use atomic_board::{GroupTable, SeatToken};
use chunk_map::Geometry;
use engine_core::found_region::{FoundRegion, Numbered, Of, On};
use fs_model::Memory;
use group_board::Opening;
use pm_region::ReadRegion;
use recover::Recovered;
use std::alloc::Global;
use std::marker::Brand;

/// The tables of all groups, by number, and the tokens of their members, by core.
#[derive(Drop)]
pub struct GroupTables {
    /// One for each group.
    pub tables: Vec<GroupTable>,
    /// One for each core.
    pub tokens: Vec<SeatToken>,
}

// The table of the group with this number.
fn open_one<O: Opening, N: Numbered>(
    alloc: Global,
    members: u32,
    group: u32,
) -> Result<GroupTable, Memory>
    requires number { N.number ≡ group }
    requires sound { images.IsSound O.bytes (image_of O.words) }
    requires group { group
        < (layout_of (image_of O.words)).cores / (layout_of (image_of O.words)).group }
    requires members { (layout_of (image_of O.words)).group ≡ members }
    ensures members { IfOk result (λ t. t.members ≡ members) }
    ensures opened { IfOk result (λ t.
        began (origin_of t) ≡ opened (place_in group O.words) (image_of O.words)) }
{
    GroupTable::open::<Of<O, N>>(alloc, members)
}

// A table, and its tokens behind those of the tables before.
fn add_tokens(
    alloc: Global,
    mut table: GroupTable,
    tokens: &mut Vec<SeatToken>,
) -> Result<GroupTable, Memory>
    ensures same { IfOk result (λ t. t ≡ table) }
    ensures have_tokens { IfOk result (λ t. AddsTokens t tokens.old.items tokens.new.items) }
{
    let seats = table.seats(alloc)?;
    for seat in seats {
        tokens.push(seat)?;
    }
    Ok(table)
}

fn open_each<O: Opening>(alloc: Global, members: u32, groups: u32) -> Result<GroupTables, Memory>
    requires sound { images.IsSound O.bytes (image_of O.words) }
    requires groups { (layout_of (image_of O.words)).cores / (layout_of (image_of O.words)).group
        ≡ groups }
    requires members { (layout_of (image_of O.words)).group ≡ members }
    ensures length { IfOk result (λ x. length x.tables.items ≡ groups) }
    ensures have_tokens { IfOk result
        (λ x. HaveTokens (image_of O.words) x.tables.items x.tokens.items) }
{
    let mut tables = Vec::new(alloc);
    let mut tokens = Vec::new(alloc);
    for group in 0..groups {
        let table = open_one::<O, Brand>(alloc, members, group)?;
        let table = add_tokens(alloc, table, &mut tokens)?;
        tables.push(table)?;
    }
    Ok(GroupTables { tables, tokens })
}

// The region is passed since what is known of its words must be said of what is passed.
fn open_on<F: FoundRegion, R: ReadRegion>(
    alloc: Global,
    _region: &R,
    layout: Geometry,
) -> Result<GroupTables, Memory>
    requires sound { images.IsSound F.bytes (image_of F.words) }
    requires layout { layout_of (image_of F.words) ≡ layout }
    requires group { 0 < layout.group }
    ensures length { IfOk result (λ x. length x.tables.items ≡ layout.cores / layout.group) }
    ensures have_tokens { IfOk result
        (λ x. HaveTokens (image_of F.words) x.tables.items x.tokens.items) }
{
    open_each::<On<F>>(alloc, layout.group, layout.cores / layout.group)
}

/// Opens a table for each group of a region that stands as recovery found it, and hands out their tokens. Nothing is
/// written.
pub fn open_tables<R: ReadRegion>(
    alloc: Global,
    region: &R,
    recovered: &Recovered,
) -> Result<GroupTables, Memory>
    requires region { StandsAsFound (R.state region.now) (R.word region.now) recovered.now }
    ensures length { IfOk result (λ x. length x.tables.items
        ≡ recovered.now.layout.cores / recovered.now.layout.group) }
    ensures have_tokens { IfOk result (λ x. (o : Origin)
        × BeginsAt (R.state region.now) (R.word region.now) o
        × HaveTokens o.found x.tables.items x.tokens.items) }
{
    let geometry = recovered.layout.geometry();
    open_on::<Brand, R>(alloc, region, geometry)
}
