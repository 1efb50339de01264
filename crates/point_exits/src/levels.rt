//! The values of all tasks by what the scheduler reads of them, and the rules by which routines begin.
ghost use Rattle.std.specs.Prelude.{◌≡◌, IfOk};
ghost use Rattle.point_exits.specs.Levels.{AreNoInsides};

use crate::arrivals::Arrivals;
use crate::insides::Insides;
use crate::task_levels::{TaskLevels, TaskValues};
use numbered_sets::Pool;
use osek_standard::App;
use osek_values::{Memory, Seq, TaskNo};
use std::alloc::Global;

/// For each task the numbers of its values by what the scheduler reads of them, and for those that name an INTERNAL resource those
/// of the same values inside. Kept with these are the rules by which routines begin where none runs.
#[derive(Drop)]
pub struct Levels {
    pub tasks: Seq<TaskLevels>,
    pub insides: Seq<Insides>,
    pub arrivals: Arrivals,
}

impl Levels {
    ghost use Rattle.std.specs.Prelude.{◌≡◌, ◌<◌, length, slice_index_or, OnOk};
    ghost use Rattle.numbered_sets.specs.Pools.{IsLonger};
    ghost use Rattle.point_exits.specs.{declared.task_levels.TaskLevels.{TaskLevels}, Levels.{AreAllInside, AreLevels, AreOwnLevels, AreAllLevels}};

    /// Brings in the values inside of the tasks that name an INTERNAL resource.
    pub fn bring_in(&mut self, app: &App, pool: &mut Pool) -> Result<(), Memory>
        requires { AreOwnLevels app.now pool.old self.old }
        ensures pool { IsLonger pool.old pool.new }
        ensures levels { AreLevels app.now pool.new self.new }
        ensures all { OnOk result (AreAllInside pool.new self.new.insides) }
    {
        for place in 0..self.insides.len() {
            let insides = self.insides.at_mut(place);
            insides.renew(pool)?;
        }
        Ok(())
    }

    /// Judges the values.
    pub fn judge(&mut self, alloc: Global, app: &App, pool: &Pool) -> Result<(), Memory>
        requires { AreOwnLevels app.now pool.now self.old }
        ensures levels { AreLevels app.now pool.now self.new }
        ensures all { OnOk result (AreAllInside pool.now self.old.insides → AreAllLevels app.now pool.now self.new) }
    {
        for task in 0..app.tasks.len() {
            let values = TaskValues {
                app,
                task: TaskNo(task as u8),
                pool,
            };
            let levels = self.tasks.at_mut(task);
            levels.renew(alloc, &values)?;
        }
        Ok(())
    }

    /// The levels of a task.
    pub fn of(&self, task: TaskNo) -> &TaskLevels
        requires { task.0 < length self.now.tasks }
        ensures { (none : TaskLevels) → slice_index_or self.now.tasks task.0 none ≡ result.now }
    {
        self.tasks.at(task.index())
    }
}

/// Nothing inside was seen yet of the tasks that name an INTERNAL resource.
pub fn no_insides(alloc: Global, app: &App) -> Result<Seq<Insides>, Memory>
    ensures { IfOk result (AreNoInsides app.now) }
{
    let mut insides = Seq::new(alloc);
    for task in 0..app.tasks.len() {
        let task = TaskNo(task as u8);
        if app.task(task).internal.is_some() {
            let numbers = Seq::new(alloc);
            insides.push(Insides { task, numbers })?;
        }
    }
    Ok(insides)
}
