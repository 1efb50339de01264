//! The ranges of the numbers in an image.
ghost use Rattle.std.specs.Prelude.{All, ◌<◌, ◌^◌};
ghost use Rattle.oil_system.specs.declared.objects.Alarm.{Alarm};
ghost use Rattle.osek_standard.specs.declared.objects.Counter.{Counter};
ghost use Rattle.image_codec.specs.Fits.{FitsAction, FitsBlock, FitsFormat, FitsKind, FitsTask};

use image_model::Image;
use osek_standard::{Action, Alarm, Block, Counter, Kind, Task};

// A number by value keeps the range of its type in a contract.
fn read_word(value: u64)
    ensures { value < 2 ^ 64 }
{
    let _value = value;
}

fn read_half(value: u32)
    ensures { value < 2 ^ 32 }
{
    let _value = value;
}

fn read_quarter(value: u16)
    ensures { value < 2 ^ 16 }
{
    let _value = value;
}

fn read_tasks(tasks: &[Task])
    ensures { All FitsTask tasks.now }
{
    for task in tasks {
        read_quarter(task.priority);
        read_word(task.own.0);
    }
}

fn read_counters(counters: &[Counter])
    ensures { All (λ (x : Counter). x.max < 2 ^ 32) counters.now }
{
    for counter in counters {
        read_half(counter.max);
    }
}

fn read_action(action: &Action)
    ensures { FitsAction action.now }
{
    match action {
        Action::ActivateTask(_) => (),
        Action::SetEvent(_, mask) => read_word(mask.0),
    }
}

fn read_alarms(alarms: &[Alarm])
    ensures { All (λ (x : Alarm). FitsAction x.action) alarms.now }
{
    for alarm in alarms {
        read_action(&alarm.action);
    }
}

fn read_kind(kind: Kind)
    ensures { FitsKind kind }
{
    let _kind = kind;
}

fn read_blocks(blocks: &[Block])
    ensures { All FitsBlock blocks.now }
{
    for block in blocks {
        let _line = block.line;
        read_kind(block.kind);
    }
}

/// Reads each number, for a contract knows a number's range only where it is read.
pub fn read_numbers(image: &Image)
    ensures { FitsFormat image.now }
{
    read_tasks(image.app.tasks.as_slice());
    read_counters(image.app.counters.as_slice());
    read_alarms(image.app.alarms.as_slice());
    read_blocks(image.app.blocks.as_slice());
}
