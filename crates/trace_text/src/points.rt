//! Points as they are printed.
ghost use Rattle.std.specs.Prelude.{◌≡◌, ◌+◌, ◌<◌, ◌≤◌, ◌++◌, length, take, IfSome};
ghost use Rattle.osek_standard.specs.Points.{IsPoint};
ghost use Rattle.trace_text.specs.PointTexts.{block_text, point_text, task_or_dash};

use osek_standard::{App, Point};
use osek_values::limits::MAX_NAME;
use osek_values::{BlockNo, TaskNo};
use text_pieces::{MAX_DECIMAL, put, put_decimal, put_name};

/// The most bytes of a block: a mark and a number.
pub const MAX_BLOCK: usize = 1 + MAX_DECIMAL;
/// The most bytes of a point: a block, a mark and a name.
pub const MAX_POINT: usize = MAX_BLOCK + 1 + MAX_NAME;

/// Puts a block, by its number. It takes no memory.
#[inline(always)]
pub fn put_block(buf: &mut [u8], at: usize, block: BlockNo) -> usize
    requires room { at + MAX_BLOCK ≤ length buf.old }
    ensures text { take result buf.new ≡ take at buf.old ++ block_text block.0 }
    ensures most { result ≤ at + MAX_BLOCK }
{
    let at = put(buf, at, b"b");
    put_decimal(buf, at, block.0 as u64)
}

/// Puts the name of a task, or `-` for none. It takes no memory.
pub fn put_task(buf: &mut [u8], at: usize, app: &App, task: Option<TaskNo>) -> usize
    requires known { IfSome task (λ t. t.0 < length app.now.tasks) }
    requires room { at + MAX_NAME ≤ length buf.old }
    ensures text { take result buf.new ≡ take at buf.old ++ task_or_dash app.now task }
    ensures most { result ≤ at + MAX_NAME }
{
    match task {
        None => put(buf, at, b"-"),
        Some(task) => put_name(buf, at, &app.task(task).name),
    }
}

/// Puts a point: a word, or a block and what its routine interrupted. It takes no memory.
#[inline(always)]
pub fn put_point(buf: &mut [u8], at: usize, app: &App, point: Point) -> usize
    requires known { IsPoint app.now point }
    requires room { at + MAX_POINT ≤ length buf.old }
    ensures text { take result buf.new ≡ take at buf.old ++ point_text app.now point }
    ensures most { result ≤ at + MAX_POINT }
{
    match point {
        Point::Halted => put(buf, at, b"halt"),
        Point::Idle => put(buf, at, b"idle"),
        Point::Task(block) => put_block(buf, at, block),
        Point::Routine { block, over } => {
            let at = put_block(buf, at, block);
            let at = put(buf, at, b"/");
            put_task(buf, at, app, over)
        }
    }
}
