//! The task code of a generated system.
ghost use Rattle.std.specs.Prelude.{◌≡◌, ◌<◌, OnOk};
ghost use Rattle.osek_vectors.specs.Writing.{onto, each_from};
ghost use Rattle.osek_vectors.specs.CodeTexts.{activation, event_setting, alarm_setting, statement, statement_of_kind, statements, task_body, isr_body, code_text};

use crate::writer::Writer;
use osek_values::Memory;

/// Statements of a loop, and behind it.
const STATEMENTS: u32 = 4;

fn put_activation(writer: &mut Writer, tasks: u32) -> Result<(), Memory>
    requires { 0 < tasks }
    ensures { OnOk result (writer.new ≡ onto writer.old (activation tasks)) }
{
    let task = writer.draw(tasks);
    write!(writer, "ActivateTask(T{task});\n")
}

#[tactic(auto, using(crate::proofs::WritingLaws::onto_draw))]
fn put_event_setting(writer: &mut Writer, tasks: u32) -> Result<(), Memory>
    requires { 0 < tasks }
    ensures { OnOk result (writer.new ≡ onto writer.old (event_setting tasks)) }
{
    let task = writer.draw(tasks);
    write!(writer, "SetEvent(T{task}, E);\n")
}

fn put_alarm_setting(writer: &mut Writer) -> Result<(), Memory>
    ensures { OnOk result (writer.new ≡ onto writer.old alarm_setting) }
{
    let offset = 1 + writer.draw(12);
    write!(writer, "SetRelAlarm(A, {offset}, 0);\n")
}

fn put_statement_of_kind(writer: &mut Writer, tasks: u32, kind: u32) -> Result<(), Memory>
    requires { 0 < tasks }
    ensures { OnOk result (writer.new ≡ onto writer.old (statement_of_kind tasks kind)) }
{
    match kind {
        0 => writer.put("work 3;\n"),
        1 => put_activation(writer, tasks),
        2 => put_event_setting(writer, tasks),
        3 => writer.put("ClearEvent(E);\n"),
        4 => writer.put("GetResource(R);\n"),
        5 => writer.put("ReleaseResource(R);\n"),
        6 => writer.put("Schedule();\n"),
        7 => writer.put("WaitEvent(E);\n"),
        8 => writer.put("GetAlarm(A);\n"),
        _ => put_alarm_setting(writer),
    }
}

#[tactic(auto, using(crate::proofs::WritingLaws::onto_draw))]
fn put_statement(writer: &mut Writer, tasks: u32) -> Result<(), Memory>
    requires { 0 < tasks }
    ensures { OnOk result (writer.new ≡ onto writer.old (statement tasks)) }
{
    let kind = writer.draw(10);
    put_statement_of_kind(writer, tasks, kind)
}

#[tactic(auto, using(crate::proofs::WritingLaws::onto_each_none, crate::proofs::WritingLaws::onto_each_next))]
fn put_statements(writer: &mut Writer, tasks: u32) -> Result<(), Memory>
    requires { 0 < tasks }
    ensures { OnOk result (writer.new ≡ onto writer.old (statements tasks)) }
{
    for _statement in 0..STATEMENTS {
        put_statement(writer, tasks)?;
    }
    Ok(())
}

#[tactic(auto, using(crate::proofs::WritingLaws::onto_then))]
fn put_task_body(writer: &mut Writer, tasks: u32, task: u32) -> Result<(), Memory>
    requires { 0 < tasks }
    ensures { OnOk result (writer.new ≡ onto writer.old (task_body tasks task)) }
{
    write!(writer, "TASK(T{task}) {{\nwhile (?) {{\n")?;
    put_statements(writer, tasks)?;
    writer.put("}\n")?;
    put_statements(writer, tasks)?;
    writer.put("}\n")
}

#[tactic(auto, using(crate::proofs::WritingLaws::onto_each_none, crate::proofs::WritingLaws::onto_each_next))]
fn put_task_bodies(writer: &mut Writer, tasks: u32) -> Result<(), Memory>
    requires { 0 < tasks }
    ensures { OnOk result (writer.new ≡ onto writer.old (each_from 0 tasks (task_body tasks))) }
{
    for task in 0..tasks {
        put_task_body(writer, tasks, task)?;
    }
    Ok(())
}

fn put_isr_body(writer: &mut Writer, tasks: u32) -> Result<(), Memory>
    requires { 0 < tasks }
    ensures { OnOk result (writer.new ≡ onto writer.old (isr_body tasks)) }
{
    let task = writer.draw(tasks);
    write!(writer, "ISR(I) {{ ActivateTask(T{task}); }}\n")
}

/// Writes the code of so many tasks, and of the ISR.
#[tactic(auto, using(crate::proofs::WritingLaws::onto_then))]
pub(crate) fn put_code(writer: &mut Writer, tasks: u32) -> Result<(), Memory>
    requires { 0 < tasks }
    ensures { OnOk result (writer.new ≡ onto writer.old (code_text tasks)) }
{
    put_task_bodies(writer, tasks)?;
    put_isr_body(writer, tasks)
}
