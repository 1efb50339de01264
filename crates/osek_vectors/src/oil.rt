//! The OIL text of a generated system.
ghost use Rattle.std.specs.Prelude.{◌≡◌, ◌<◌, OnOk};
ghost use Rattle.osek_vectors.specs.{Writing.{onto, each_from}, OilTexts.{schedule as the_schedule, task_line, oil_text}};

use crate::writer::Writer;
use osek_values::Memory;

const HEAD: &str = "CPU gen {\n\
    OS os;\n\
    EVENT E;\n\
    RESOURCE R;\n\
    COUNTER C { MAXALLOWEDVALUE = 9; };\n";

const FOOT: &str = "ALARM A { COUNTER = C; ACTION = ACTIVATETASK { TASK = T0; }; \
    AUTOSTART = TRUE { ALARMTIME = 1; CYCLETIME = 3; }; };\n\
    ISR I { CATEGORY = 2; };\n\
    };\n";

fn schedule(number: u32) -> &'static str
    ensures { result.now ≡ the_schedule number }
{
    match number {
        0 => "NON",
        _ => "FULL",
    }
}

fn put_task(writer: &mut Writer, task: u32) -> Result<(), Memory>
    ensures { OnOk result (writer.new ≡ onto writer.old (task_line task)) }
{
    let schedule = schedule(writer.draw(4));
    write!(
        writer,
        "TASK T{task} {{ PRIORITY = {task}; SCHEDULE = {schedule}; AUTOSTART = TRUE; EVENT = E; RESOURCE = R; }};\n"
    )
}

#[tactic(auto, using(crate::proofs::WritingLaws::onto_each_none, crate::proofs::WritingLaws::onto_each_next))]
fn put_tasks(writer: &mut Writer, tasks: u32) -> Result<(), Memory>
    ensures { OnOk result (writer.new ≡ onto writer.old (each_from 0 tasks task_line)) }
{
    for task in 0..tasks {
        put_task(writer, task)?;
    }
    Ok(())
}

/// Writes the OIL text for a number of tasks.
pub(crate) fn put_oil(writer: &mut Writer, tasks: u32) -> Result<(), Memory>
    ensures { OnOk result (writer.new ≡ onto writer.old (oil_text tasks)) }
{
    writer.put(HEAD)?;
    put_tasks(writer, tasks)?;
    writer.put(FOOT)
}
