//! The points of an application in their order.
ghost use Rattle.std.specs.Prelude.{◌≡◌, ◌++◌, ◌<◌, length, IfOk, OnOk};
ghost use Rattle.osek_standard.specs.Points.{points_in_order, block_points as points_of, routine_points};

use image_model::is_task_block;
use osek_standard::{App, Point};
use osek_values::{BlockNo, Memory, Seq, TaskNo};
use std::alloc::Global;

/// All points, in the order of their numbers.
pub(crate) fn points(alloc: Global, app: &App) -> Result<Seq<Point>, Memory>
    ensures { IfOk result (λ points. points ≡ points_in_order app.now) }
{
    let mut points = Seq::new(alloc);
    points.push(Point::Halted)?;
    points.push(Point::Idle)?;
    for block in 0..app.blocks.len() {
        push_block_points(app, block, &mut points)?;
    }
    Ok(points)
}

fn push_block_points(app: &App, block: usize, points: &mut Seq<Point>) -> Result<(), Memory>
    requires { block < length app.now.blocks }
    ensures { OnOk result (points.new ≡ points.old ++ points_of app.now block) }
{
    let number = BlockNo(block as u16);
    if is_task_block(app.tasks.as_slice(), number.0) {
        points.push(Point::Task(number))
    } else {
        push_routine_points(app, number, points)
    }
}

fn push_routine_points(app: &App, block: BlockNo, points: &mut Seq<Point>) -> Result<(), Memory>
    ensures { OnOk result (points.new ≡ points.old ++ routine_points (length app.now.tasks) block.0) }
{
    points.push(Point::Routine { block, over: None })?;
    for task in 0..app.tasks.len() {
        points.push(Point::Routine {
            block,
            over: Some(TaskNo(task as u8)),
        })?;
    }
    Ok(())
}
