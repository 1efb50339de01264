//! The check of an image and a table.
ghost use Rattle.std.specs.Prelude.{◌≡◌, ◌<◌, List, length, IfOk};
ghost use Rattle.osek_values.specs.declared.{event.Event.{Event}, numbers.ModeNo.{ModeNo}};
ghost use Rattle.image_model.specs.Laws.{IsKernelsRun};
ghost use Rattle.abstract_state.specs.{Tables.{sets_of}, Written.{IsWritten}};
ghost use Rattle.flow_check.specs.declared.verdict.Verdict.TheVariants as verdict;
ghost use Rattle.flow_check.specs.Verdicts.{IsVerdict};

use crate::fitting::verdict_by;
use crate::flow::{Flow, flow_of};
use crate::starting::first_start_out;
use crate::verdict::Verdict;
use image_model::Image;
use numbered_sets::Table;
use osek_values::{Memory, ModeNo};
use std::alloc::Global;

/// Whether a table of an image's application is inductive and the image fits it, whoever made the two: yes, or the least no.
/// Each row is evaluated once at most. With yes the image runs as the kernel.
pub fn check(alloc: Global, image: &Image, table: &Table) -> Result<Verdict, Memory>
    requires { IsWritten image.now.app table.now }
    ensures verdict { IfOk result (IsVerdict image.now (sets_of table.now)) }
    ensures kernel { IfOk result (λ said. said ≡ verdict.Yes → (mode : ModeNo) (es : List Event) → mode.0 < length image.now.app.modes → IsKernelsRun image.now mode es) }
{
    let app = &image.app;
    let numbered = table.numbered_rows(alloc)?;
    let rows = numbered.rows.as_slice();
    let mut pool = numbered.pool;
    if rows.is_empty() {
        return Ok(Verdict::N1(ModeNo(0)));
    }
    if let Some(mode) = first_start_out(alloc, app, rows, &mut pool)? {
        return Ok(Verdict::N1(mode));
    }
    match flow_of(alloc, app, rows, pool)? {
        Flow::Leaves(point) => Ok(Verdict::N2(point)),
        Flow::Stays(found) => Ok(verdict_by(image, found.as_slice())),
    }
}
