//! An application: what an image holds but for the forms of its sites.
ghost use Rattle.osek_standard.specs.{Validity.{IsValid, IsValid-prop}, Tables.{tabled}};

use crate::block::Block;
use crate::objects::{Alarm, Counter, Isr, Resource, Task};
use crate::task_state::{Activity, TaskState};
use osek_values::{AlarmNo, BlockNo, CounterNo, HookSet, Mask, Name, ResNo, Seq, SourceNo, TaskNo};

/// An application. Entries stand in order of declaration, RES_SCHEDULER last among the resources, and
/// OSDEFAULTAPPMODE first among the modes.
#[derive(Drop)]
pub struct App {
    /// The hooks that the OS object sets TRUE.
    pub hooks: HookSet,
    pub tasks: Seq<Task>,
    pub isrs: Seq<Isr>,
    pub counters: Seq<Counter>,
    pub alarms: Seq<Alarm>,
    pub resources: Seq<Resource>,
    pub modes: Seq<Name>,
    pub blocks: Seq<Block>,
    pub ghost valid: { IsValid (tabled hooks tasks isrs counters alarms resources modes blocks) } by { IsValid-prop (tabled hooks tasks isrs counters alarms resources modes blocks) },
}

impl App {
    ghost use Rattle.std.specs.Prelude.{◌≡◌, ◌<◌, length};
    ghost use Rattle.osek_standard.specs.{Apps.{the_task, the_block, the_alarm, the_counter, the_resource, source_count, source_priority, routine_start}, Services.{activated_state}};

    /// A task's declaration.
    pub fn task(&self, task: TaskNo) -> &Task
        requires { task.0 < length self.now.tasks }
        ensures { the_task self.now task.0 ≡ result.now }
    {
        self.tasks.at(task.index())
    }

    /// A task's state as an activation leaves it.
    pub fn activated(&self, task: TaskNo) -> TaskState
        requires { task.0 < length self.now.tasks }
        ensures { result ≡ activated_state self.now task.0 }
    {
        TaskState {
            activity: Activity::live_at(self.task(task).first, 0),
            events: Mask(0),
        }
    }

    /// A block.
    pub fn block(&self, block: BlockNo) -> &Block
        requires { block.0 < length self.now.blocks }
        ensures { the_block self.now block.0 ≡ result.now }
    {
        self.blocks.at(block.index())
    }

    /// A resource.
    pub fn resource(&self, resource: ResNo) -> &Resource
        requires { resource.0 < length self.now.resources }
        ensures { the_resource self.now resource.0 ≡ result.now }
    {
        self.resources.at(resource.index())
    }

    /// An alarm.
    pub fn alarm(&self, alarm: AlarmNo) -> &Alarm
        requires { alarm.0 < length self.now.alarms }
        ensures { the_alarm self.now alarm.0 ≡ result.now }
    {
        self.alarms.at(alarm.index())
    }

    /// A counter.
    pub fn counter(&self, counter: CounterNo) -> &Counter
        requires { counter.0 < length self.now.counters }
        ensures { the_counter self.now counter.0 ≡ result.now }
    {
        self.counters.at(counter.index())
    }

    /// The counter of an alarm.
    pub fn counter_of(&self, alarm: AlarmNo) -> &Counter
        requires { alarm.0 < length self.now.alarms }
        ensures { the_counter self.now (the_alarm self.now alarm.0).counter.0 ≡ result.now }
    {
        self.counter(self.alarm(alarm).counter)
    }

    /// Where the routine of a source begins: a counter's tick routine, or an ISR's body.
    pub fn routine_start(&self, source: SourceNo) -> BlockNo
        requires { source.0 < source_count self.now }
        ensures { result ≡ routine_start self.now source.0 }
    {
        let counters = self.counters.len();
        if source.index() < counters {
            self.counters.at(source.index()).first
        } else {
            self.isrs.at(source.index() - counters).first
        }
    }

    /// The priority of a source's routine: an ISR's, and the lowest for a counter.
    pub fn source_priority(&self, source: SourceNo) -> u8
        requires { source.0 < source_count self.now }
        ensures { result ≡ source_priority self.now source.0 }
    {
        let counters = self.counters.len();
        if source.index() < counters {
            0
        } else {
            self.isrs.at(source.index() - counters).priority
        }
    }
}
