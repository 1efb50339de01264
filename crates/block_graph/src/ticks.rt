//! The tick routines of counters, whose blocks stand behind those of the task code.
ghost use Rattle.std.specs.Prelude.{◌≡◌, ◌≤◌, ◌+◌, ◌++◌, length, OnOk};
ghost use Rattle.osek_standard.specs.Validity.{due_of};
ghost use Rattle.oil_model.specs.Linkable.{IsLinkable};
ghost use Rattle.block_graph.specs.Blocks.{tick_block as the_tick_block, expiries, routine, routine_size as the_routine_size, routines};

use crate::layout::block_no;
use oil_system::System;
use osek_standard::{Alarm, Block, Kind};
use osek_values::{AlarmNo, Memory};

fn tick_block(kind: Kind, next: usize) -> Block
    requires { next ≤ 65535 }
    ensures { result ≡ the_tick_block kind next }
{
    Block {
        kind,
        locked: false,
        line: 0,
        next: block_no(next),
    }
}

fn alarm_no(number: usize) -> AlarmNo
    requires { number ≤ 255 }
    ensures { result.0 ≡ number }
{
    AlarmNo(number as u8)
}

/// How many blocks the tick routine of a counter has.
pub fn routine_size(alarms: &[Alarm], counter: usize) -> usize
    requires { length alarms.now ≤ 16 }
    ensures is { result ≡ the_routine_size (due_of alarms.now counter) }
    ensures few { result ≤ 18 }
{
    let mut due = 0;
    for alarm in alarms {
        if alarm.counter.index() == counter {
            due += 1;
        }
    }
    due + 2
}

/// Adds an Expire for each alarm of a counter, in order, and an IsrEnd.
fn lay_out_expiries(
    alarms: &[Alarm],
    counter: usize,
    first: usize,
    blocks: &mut Vec<Block>,
) -> Result<(), Memory>
    requires few { length alarms.now ≤ 16 }
    requires room { first ≤ 2048 }
    ensures { OnOk result (blocks.new.items ≡ blocks.old.items ++ expiries (due_of alarms.now counter) first) }
{
    let mut number = first;
    for (i, alarm) in alarms.iter().enumerate() {
        if alarm.counter.index() == counter {
            number += 1;
            blocks.push(tick_block(Kind::Expire(alarm_no(i)), number))?;
        }
    }
    blocks.push(tick_block(Kind::IsrEnd, number))?;
    Ok(())
}

/// Adds the tick routine of a counter, which begins at block `number`.
fn lay_out_routine(
    alarms: &[Alarm],
    counter: usize,
    number: usize,
    blocks: &mut Vec<Block>,
) -> Result<(), Memory>
    requires few { length alarms.now ≤ 16 }
    requires room { number ≤ 2000 }
    ensures { OnOk result (blocks.new.items ≡ blocks.old.items ++ routine (due_of alarms.now counter) number) }
{
    let first = number + 1;
    blocks.push(tick_block(Kind::CountUp, first))?;
    lay_out_expiries(alarms, counter, first, blocks)?;
    Ok(())
}

/// Adds the tick routines of all counters, the first of which begins at block `first`.
pub fn lay_out_routines(
    system: &System,
    first: usize,
    blocks: &mut Vec<Block>,
) -> Result<(), Memory>
    requires linkable { IsLinkable system.now }
    requires room { first ≤ 1024 }
    ensures { OnOk result (blocks.new.items ≡ blocks.old.items ++ routines system.now system.now.counters 0 first) }
{
    let alarms = system.alarms.as_slice();
    let mut number = first;
    for counter in 0..system.counters.len() {
        lay_out_routine(alarms, counter, number, blocks)?;
        number += routine_size(alarms, counter);
    }
    Ok(())
}
