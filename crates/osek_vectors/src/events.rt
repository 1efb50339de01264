//! The events for a generated system.
ghost use Rattle.std.specs.Prelude.{◌≡◌, ◌≤◌, OnOk};
ghost use Rattle.osek_values.specs.declared.limits.TheConstants.{MAX_TASKS};
ghost use Rattle.osek_vectors.specs.{Writing.{onto}, EventLines.{run_line, event_line, event_line_of_kind, event_text}};

use crate::writer::Writer;
use osek_values::Memory;

/// Event lines for each task.
const LINES_PER_TASK: u32 = 1_000;

#[tactic(auto, using(crate::proofs::WritingLaws::onto_draw))]
fn put_run(writer: &mut Writer) -> Result<(), Memory>
    ensures { OnOk result (writer.new ≡ onto writer.old run_line) }
{
    let choice = writer.draw(2);
    write!(writer, "run {choice}\n")
}

fn put_event_of_kind(writer: &mut Writer, kind: u32) -> Result<(), Memory>
    ensures { OnOk result (writer.new ≡ onto writer.old (event_line_of_kind kind)) }
{
    match kind {
        0 => writer.put("irq I\n"),
        1 => writer.put("tick C\n"),
        _ => put_run(writer),
    }
}

#[tactic(auto, using(crate::proofs::WritingLaws::onto_draw))]
fn put_event(writer: &mut Writer) -> Result<(), Memory>
    ensures { OnOk result (writer.new ≡ onto writer.old event_line) }
{
    let kind = writer.draw(10);
    put_event_of_kind(writer, kind)
}

/// Writes the event lines for so many tasks.
#[tactic(auto, using(crate::proofs::WritingLaws::onto_each_none, crate::proofs::WritingLaws::onto_each_next))]
pub(crate) fn put_events(writer: &mut Writer, tasks: u32) -> Result<(), Memory>
    requires { tasks ≤ MAX_TASKS }
    ensures { OnOk result (writer.new ≡ onto writer.old (event_text tasks)) }
{
    for _line in 0..tasks * LINES_PER_TASK {
        put_event(writer)?;
    }
    Ok(())
}
