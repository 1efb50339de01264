//! How many points an application has, and how high its tables of possible states are.
ghost use Rattle.std.specs.{Prelude.{◌≡◌, ◌≤◌, length, ◌*◌, not}, List.{sum_by, count_by}};
ghost use Rattle.osek_standard.specs.Counts.{stacks, event_height, task_height, isr_height, tick_height};

use crate::app::App;
use crate::objects::{Counter, Isr, Resource, Task};
use osek_values::limits::{MAX_COUNTERS, MAX_ISRS, MAX_RESOURCES, MAX_TASKS};

// suspended; 65,535 blocks to wait at; and as many, each with 109,601 stacks, 255 activations, inside or not
const MAX_TASK_HEIGHT: u64 = 1 + 65_535 + 65_535 * 109_601 * 255 * 2;

// out; and 65,535 blocks to be at, each with 109,601 stacks
const MAX_ISR_HEIGHT: u64 = 1 + 65_535 * 109_601;

fn blocks_of_tasks(tasks: &[Task]) -> u32
    requires { length tasks.now ≤ MAX_TASKS }
    ensures { result ≡ sum_by (λ x. x.count) tasks.now }
{
    tasks.iter().map(|task| task.count as u32).sum()
}

fn blocks_of_isrs(isrs: &[Isr]) -> u32
    requires { length isrs.now ≤ MAX_ISRS }
    ensures { result ≡ sum_by (λ x. x.count) isrs.now }
{
    isrs.iter().map(|isr| isr.count as u32).sum()
}

fn blocks_of_counters(counters: &[Counter]) -> u32
    requires { length counters.now ≤ MAX_COUNTERS }
    ensures { result ≡ sum_by (λ x. x.count) counters.now }
{
    counters.iter().map(|counter| counter.count as u32).sum()
}

// the stacks of distinct resources, out of so many
fn stacks(resources: usize) -> u64
    requires { resources ≤ MAX_RESOURCES }
    ensures value { result ≡ stacks resources }
    ensures few { result ≤ 109601 }
{
    let mut found = 1;
    for fewer in 0..resources {
        found = 1 + (fewer as u64 + 1) * found;
    }
    found
}

// how many resources may stand on a stack
fn takable_of(resources: &[Resource]) -> usize
    ensures { result ≡ count_by (λ x. not x.internal) resources.now }
{
    resources
        .iter()
        .filter(|resource| !resource.internal)
        .count()
}

// the activities of a task, over so many stacks
fn height_of(task: &Task, stacks: u64) -> u64
    requires { stacks ≤ 109601 }
    ensures value { result ≡ task_height stacks task.now }
    ensures few { result ≤ MAX_TASK_HEIGHT }
{
    let live = task.count as u64 * stacks * task.activation as u64;
    let inside_or_not = match task.internal {
        Some(_) => 2 * live,
        None => live,
    };
    1 + task.count as u64 + inside_or_not
}

fn heights_of_tasks(tasks: &[Task], stacks: u64) -> u64
    requires few { length tasks.now ≤ MAX_TASKS }
    requires stacks { stacks ≤ 109601 }
    ensures value { result ≡ sum_by (task_height stacks) tasks.now }
    ensures few { result ≤ 16 * MAX_TASK_HEIGHT }
{
    let mut height = 0;
    for task in tasks {
        height += height_of(task, stacks);
    }
    height
}

fn events_of_tasks(tasks: &[Task]) -> u32
    requires { length tasks.now ≤ MAX_TASKS }
    ensures { result ≡ sum_by event_height tasks.now }
{
    tasks.iter().map(|task| 2 * task.own.0.count_ones()).sum()
}

// the activities of an ISR's routine, over so many stacks
fn height_of_isr(isr: &Isr, stacks: u64) -> u64
    requires { stacks ≤ 109601 }
    ensures value { result ≡ isr_height stacks isr.now }
    ensures few { result ≤ MAX_ISR_HEIGHT }
{
    1 + isr.count as u64 * stacks
}

fn heights_of_isrs(isrs: &[Isr], stacks: u64) -> u64
    requires few { length isrs.now ≤ MAX_ISRS }
    requires stacks { stacks ≤ 109601 }
    ensures value { result ≡ sum_by (isr_height stacks) isrs.now }
    ensures few { result ≤ 8 * MAX_ISR_HEIGHT }
{
    let mut height = 0;
    for isr in isrs {
        height += height_of_isr(isr, stacks);
    }
    height
}

fn heights_of_counters(counters: &[Counter]) -> u32
    requires { length counters.now ≤ MAX_COUNTERS }
    ensures { result ≡ sum_by tick_height counters.now }
{
    counters
        .iter()
        .map(|counter| 1 + counter.count as u32)
        .sum()
}

impl App {
    ghost use Rattle.std.specs.Prelude.{◌≡◌};
    ghost use Rattle.osek_standard.specs.Counts.{points, height};

    /// The points at which the kernel can be: halted, idle, each block of a task, and each block of a routine over
    /// each task or over none.
    pub fn points(&self) -> u64
        ensures { result ≡ points self.now }
    {
        let routines = blocks_of_isrs(self.isrs.as_slice()) as u64
            + blocks_of_counters(self.counters.as_slice()) as u64;
        let over = self.tasks.len() as u64 + 1;
        2 + blocks_of_tasks(self.tasks.as_slice()) as u64 + routines * over
    }

    /// How many values the parts of a state can have together, in a table of possible states: each task's activities,
    /// each event set or not, each alarm idle or armed, and each routine out or in at a block.
    pub fn height(&self) -> u64
        ensures { result ≡ height self.now }
    {
        let tasks = self.tasks.as_slice();
        let stacks = stacks(takable_of(self.resources.as_slice()));
        let sources = heights_of_counters(self.counters.as_slice()) as u64
            + heights_of_isrs(self.isrs.as_slice(), stacks);
        heights_of_tasks(tasks, stacks)
            + events_of_tasks(tasks) as u64
            + 2 * self.alarms.len() as u64
            + sources
    }
}
