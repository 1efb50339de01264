//! What a source can be at a point.
ghost use Rattle.std.specs.{Prelude.{◌≡◌, ◌↔◌, ◌<◌, IsTrue}, Bool.{OnTrue}};
ghost use Rattle.osek_standard.specs.{Apps.{source_count}, Well.{IsOfRoutine}};
ghost use Rattle.abstract_state.specs.declared.value.Component.TheVariants as component;
ghost use Rattle.table_codec.specs.{Kept.{BarsNoValue}, SourceShapes.{most_held as most_held_by, routine_at as routine_block}};

use crate::values::takable_count;
use abstract_state::routine_size;
use image_model::is_within;
use osek_standard::{App, Point};
use osek_values::{BlockNo, SourceNo};

/// What a source can be at a point: whether it may be Out, and at which blocks it may be In.
#[derive(Clone, Copy)]
pub(crate) struct SourceShape {
    pub point: Point,
    pub source: SourceNo,
    pub may_be_out: bool,
    pub may_be_in: bool,
    pub first: BlockNo,
    pub count: u16,
    /// So many resources may its routine hold.
    pub most: u8,
}

impl SourceShape {
    ghost use Rattle.std.specs.Prelude.{◌≡◌, ◌<◌};
    ghost use Rattle.osek_standard.specs.Apps.{source_count};
    ghost use Rattle.table_codec.specs.SourceShapes.{IsSourceShape};

    /// What a source can be at a point.
    pub fn of(app: &App, point: Point, source: SourceNo) -> SourceShape
        requires { source.0 < source_count app.now }
        ensures shape { IsSourceShape app.now result }
        ensures point { result.point ≡ point }
        ensures source { result.source ≡ source }
    {
        let first = app.routine_start(source);
        let count = routine_size(app, source);
        let most = most_held(app, source);
        match routine_at(point) {
            None => SourceShape {
                point,
                source,
                may_be_out: true,
                may_be_in: false,
                first,
                count,
                most,
            },
            Some(block) => {
                if is_of_routine(app, source, block) {
                    SourceShape {
                        point,
                        source,
                        may_be_out: false,
                        may_be_in: true,
                        first: block,
                        count: 1,
                        most,
                    }
                } else {
                    SourceShape {
                        point,
                        source,
                        may_be_out: true,
                        may_be_in: true,
                        first,
                        count,
                        most,
                    }
                }
            }
        }
    }
}

/// Whether a source can be at a point what it can be at any other one: another source's routine has the processor.
pub(crate) fn is_free_source(app: &App, point: Point, source: SourceNo) -> bool
    requires { source.0 < source_count app.now }
    ensures { OnTrue result (BarsNoValue app.now point (component.Source source)) }
{
    match routine_at(point) {
        None => false,
        Some(block) => !is_of_routine(app, source, block),
    }
}

// the block of the routine that has the processor
fn routine_at(point: Point) -> Option<BlockNo>
    ensures { result ≡ routine_block point }
{
    match point {
        Point::Halted | Point::Idle | Point::Task(_) => None,
        Point::Routine { block, over: _ } => Some(block),
    }
}

fn is_of_routine(app: &App, source: SourceNo, block: BlockNo) -> bool
    requires { source.0 < source_count app.now }
    ensures { IsTrue result ↔ IsOfRoutine app.now source.0 block.0 }
{
    let first = app.routine_start(source);
    let count = routine_size(app, source);
    is_within(block.0, first, count)
}

// how many resources a source's routine may hold
fn most_held(app: &App, source: SourceNo) -> u8
    ensures { result ≡ most_held_by app.now source.0 }
{
    if source.index() < app.counters.len() {
        0
    } else {
        takable_count(app)
    }
}
