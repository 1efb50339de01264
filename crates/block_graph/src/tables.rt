//! The tables of an application: what the system declares, each with its blocks.
ghost use Rattle.std.specs.Prelude.{◌≡◌, ◌≤◌, IfOk};
ghost use Rattle.oil_model.specs.Linkable.{IsLinkable};
ghost use Rattle.task_code.specs.declared.tree.BodyKind.TheVariants as body_kind;
ghost use Rattle.block_graph.specs.{Apps.{extent as the_extent, task_with, isr_with, counter_with, tasks_of, isrs_of, counters_from}, Blocks.{source_size}};

use crate::layout::{block_no, size};
use crate::owners::is_code_of;
use crate::ticks::routine_size;
use oil_system::{CounterObject, IsrObject, System, TaskObject};
use osek_standard::{Counter, Isr, Task};
use osek_values::{Memory, Name, Seq, copied};
use std::alloc::Global;
use task_code::{Body, BodyKind};

/// A number of blocks as a number of 16 bits.
fn narrow(count: usize) -> u16
    requires { count ≤ 65535 }
    ensures { result ≡ count }
{
    count as u16
}

/// The blocks of the code of a task or an ISR: the first, and how many.
fn extent(kind: BodyKind, name: &Name, bodies: &[Body]) -> (usize, usize)
    requires { source_size bodies.now ≤ 1024 }
    ensures is { result ≡ the_extent kind name.now bodies.now 0 }
    ensures first { result.0 ≤ 1024 }
    ensures count { result.1 ≤ 1024 }
{
    let mut first = 0;
    for body in bodies {
        let count = size(body);
        if is_code_of(kind, name, body) {
            return (first, count);
        }
        first += count;
    }
    (first, 0)
}

fn task(alloc: Global, declared: &TaskObject, bodies: &[Body]) -> Result<Task, Memory>
    requires { source_size bodies.now ≤ 1024 }
    ensures { IfOk result (λ t. t ≡ task_with declared.now (the_extent body_kind.Task declared.now.name bodies.now 0)) }
{
    let extent = extent(BodyKind::Task, &declared.name, bodies);
    let name = copied(alloc, &declared.name)?;
    Ok(Task {
        name,
        priority: declared.priority,
        schedule: declared.schedule,
        own: declared.own,
        autostart: declared.autostart,
        first: block_no(extent.0),
        count: narrow(extent.1),
        activation: declared.activation,
        internal: declared.internal,
    })
}

/// The tasks.
pub fn tasks(alloc: Global, system: &System, bodies: &[Body]) -> Result<Seq<Task>, Memory>
    requires { source_size bodies.now ≤ 1024 }
    ensures { IfOk result (λ found. found ≡ tasks_of system.now bodies.now) }
{
    let mut found = Vec::new(alloc);
    for declared in system.tasks.as_slice() {
        found.push(task(alloc, declared, bodies)?)?;
    }
    Ok(Seq::of(found))
}

fn isr(alloc: Global, declared: &IsrObject, bodies: &[Body]) -> Result<Isr, Memory>
    requires { source_size bodies.now ≤ 1024 }
    ensures { IfOk result (λ x. x ≡ isr_with declared.now (the_extent body_kind.Isr declared.now.name bodies.now 0)) }
{
    let extent = extent(BodyKind::Isr, &declared.name, bodies);
    let name = copied(alloc, &declared.name)?;
    Ok(Isr {
        name,
        first: block_no(extent.0),
        count: narrow(extent.1),
        priority: declared.priority,
    })
}

/// The category 2 ISRs.
pub fn isrs(alloc: Global, system: &System, bodies: &[Body]) -> Result<Seq<Isr>, Memory>
    requires { source_size bodies.now ≤ 1024 }
    ensures { IfOk result (λ found. found ≡ isrs_of system.now bodies.now) }
{
    let mut found = Vec::new(alloc);
    for declared in system.isrs.as_slice() {
        found.push(isr(alloc, declared, bodies)?)?;
    }
    Ok(Seq::of(found))
}

fn counter(
    alloc: Global,
    declared: &CounterObject,
    first: usize,
    count: usize,
) -> Result<Counter, Memory>
    requires first { first ≤ 65535 }
    requires count { count ≤ 65535 }
    ensures { IfOk result (λ x. x ≡ counter_with declared.now (first, count)) }
{
    let name = copied(alloc, &declared.name)?;
    Ok(Counter {
        name,
        max: declared.max,
        min_cycle: declared.min_cycle,
        first: block_no(first),
        count: narrow(count),
    })
}

/// The counters, whose tick routines stand behind `first` blocks of task code.
pub fn counters(alloc: Global, system: &System, first: usize) -> Result<Seq<Counter>, Memory>
    requires linkable { IsLinkable system.now }
    requires room { first ≤ 1024 }
    ensures { IfOk result (λ found. found ≡ counters_from system.now system.now.counters 0 first) }
{
    let mut found = Vec::new(alloc);
    let mut number = first;
    let alarms = system.alarms.as_slice();
    for (i, declared) in system.counters.as_slice().iter().enumerate() {
        let count = routine_size(alarms, i);
        found.push(counter(alloc, declared, number, count)?)?;
        number += count;
    }
    Ok(Seq::of(found))
}
