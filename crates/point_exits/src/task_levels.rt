//! The values of one task by what the scheduler reads of them.
ghost use Rattle.std.specs.Prelude.{◌≡◌, ◌<◌, length};

use abstract_state::{Domain, PartValue};
use block_sets::BlockSets;
use flow_exits::as_candidate;
use numbered_sets::{NumberedEntry, NumberedSet, Pool};
use osek_standard::App;
use osek_values::{Memory, Seq, TaskNo};
use std::alloc::Global;

/// The numbers of the values with which a task is Live at one current priority.
#[derive(Drop)]
pub struct Level {
    pub priority: u32,
    pub numbers: NumberedSet,
    /// Those of the values with which it is Live at this priority or above, so that one look leaves out all of them.
    pub from: NumberedSet,
}

/// The numbers of a task's values: those with which it isn't Live, and those of each current priority.
#[derive(Drop)]
pub struct TaskLevels {
    /// How many values were judged.
    pub judged: usize,
    pub dead: NumberedSet,
    pub levels: Seq<Level>,
    /// The numbers of the values at each block; those of the next values may be there already.
    pub blocks: BlockSets,
}

/// The values with which a task of an application was seen.
#[derive(Clone, Copy)]
pub struct TaskValues<'a> {
    pub app: &'a App,
    pub task: TaskNo,
    pub pool: &'a Pool,
    ghost known: { task.0 < length app.now.tasks },
    ghost seen: { task.0 < length pool.now },
}

impl TaskLevels {
    ghost use Rattle.std.specs.Prelude.{ℕ, List, ◌≡◌, ◌<◌, ◌≤◌, ◌+◌, ◌^◌, length, slice_index_or, IfOk, OnOk, OnErr, IfSome, IsTrue, ◌-◌};
    ghost use Rattle.osek_standard.specs.declared.app.App.{App};
    ghost use Rattle.abstract_state.specs.{declared.value.PartValue.{PartValue}, Concrete.{val_of}};
    ghost use Rattle.numbered_sets.specs.{Numbers.{has_number}, Pools.{values_at, IsNumberOf, Values}, NumberedEntries.{numbers_at}};
    ghost use Rattle.point_exits.specs.declared.task_levels.Level.{Level};
    ghost use Rattle.point_exits.specs.Levels.{IsLiveAt, AreFrom, AreTaskLevels, AreLevelsOf, HasNext, with_next, ArePutFrom, IsLeastFrom, AreAllJudged, IsLeastLimit, IsNarrowed};
    ghost use Rattle.flow_model.specs.Values.{is_live_value};
    ghost use Rattle.flow_exits.specs.Claims.{is_below};

    /// No value was judged yet.
    pub fn new(alloc: Global, domain: Domain) -> TaskLevels
        ensures judged { result.judged ≡ 0 }
        ensures levels { (app : App) (u : ℕ) (vs : List PartValue) → AreTaskLevels app u vs result }
    {
        TaskLevels {
            judged: 0,
            dead: NumberedSet::new(alloc, domain),
            levels: Seq::new(alloc),
            blocks: BlockSets::new(alloc, domain),
        }
    }

    /// Judges the values that came in since the last time.
    pub fn renew(&mut self, alloc: Global, values: &TaskValues) -> Result<(), Memory>
        requires { AreLevelsOf values.now self.old }
        ensures levels { AreLevelsOf values.now self.new }
        ensures all { OnOk result (self.new.judged ≡ length (values_at values.now.pool.now values.now.task.0)) }
    {
        let component = values.task.index();
        let count = values.pool.len(component);
        if self.judged >= count {
            return Ok(());
        }
        self.blocks.renew(alloc, values.pool, component)?;
        for number in self.judged..count {
            self.judge_next(alloc, values)?;
            self.judged = number + 1;
        }
        Ok(())
    }

    // judges the next value, by one at another block where it can
    fn judge_next(&mut self, alloc: Global, values: &TaskValues) -> Result<(), Memory>
        requires { HasNext values.now self.old }
        ensures levels { OnOk result (AreLevelsOf values.now (with_next self.new)) }
        ensures judged { OnOk result (self.new.judged ≡ self.old.judged) }
        ensures err { OnErr result (AreLevelsOf values.now self.new) }
    {
        if let Some(place) = self.place_beside(values) {
            return self.put_next(place);
        }
        let value = values.pool.value(values.task.index(), self.judged);
        self.judge(alloc, values, &value)
    }

    // The place of the level of the next value, by what it would be at the block before: there a task mostly held the same.
    fn place_beside(&self, values: &TaskValues) -> Option<usize>
        requires { HasNext values.now self.now }
        ensures known { IfSome result (λ place. place < length self.now.levels) }
        ensures level { IfSome result (λ place. (d : Level) (v : PartValue) → IsNumberOf (values_at values.now.pool.now values.now.task.0) v self.now.judged →
            IsLiveAt values.now.app.now values.now.task.0 (slice_index_or self.now.levels place d).priority v) }
    {
        let beside = values.pool.beside(values.task.index(), self.judged)?;
        for place in 0..self.levels.len() {
            if self.levels.at(place).numbers.has(beside) {
                return Some(place);
            }
        }
        None
    }

    // judges the next value
    fn judge(&mut self, alloc: Global, values: &TaskValues, value: &PartValue) -> Result<(), Memory>
        ensures levels { OnOk result ((vs : List PartValue) → AreTaskLevels values.now.app.now values.now.task.0 vs self.old → IsNumberOf vs value.now self.old.judged →
            AreTaskLevels values.now.app.now values.now.task.0 vs (with_next self.new)) }
        ensures judged { OnOk result (self.new.judged ≡ self.old.judged) }
        ensures err { OnErr result ((vs : List PartValue) → AreTaskLevels values.now.app.now values.now.task.0 vs self.old → IsNumberOf vs value.now self.old.judged →
            AreTaskLevels values.now.app.now values.now.task.0 vs self.new) }
    {
        match as_candidate(values.app, values.task, value) {
            None => {
                self.dead.put(self.judged)?;
                Ok(())
            }
            Some(own) => {
                let place = self.place_for(alloc, own.priority)?;
                self.put_next(place)
            }
        }
    }

    // puts the next number in the level at a place
    fn put_next(&mut self, place: usize) -> Result<(), Memory>
        requires { place < length self.old.levels }
        ensures levels { OnOk result ((app : App) (u : ℕ) (vs : List PartValue) (v : PartValue) → AreTaskLevels app u vs self.old → IsNumberOf vs v self.old.judged →
            ((d : Level) → IsLiveAt app u (slice_index_or self.old.levels place d).priority v) → AreTaskLevels app u vs (with_next self.new)) }
        ensures judged { OnOk result (self.new.judged ≡ self.old.judged) }
        ensures err { OnErr result ((app : App) (u : ℕ) (vs : List PartValue) (v : PartValue) → AreTaskLevels app u vs self.old → IsNumberOf vs v self.old.judged →
            ((d : Level) → IsLiveAt app u (slice_index_or self.old.levels place d).priority v) → AreTaskLevels app u vs self.new) }
    {
        let number = self.judged;
        let priority = self.levels.at(place).priority;
        self.put_from(priority)?;
        let level = self.levels.at_mut(place);
        level.numbers.put(number)?;
        Ok(())
    }

    // Puts the next number, of a value at a priority, to those from each priority up to it on.
    fn put_from(&mut self, priority: u32) -> Result<(), Memory>
        ensures put { ArePutFrom priority self.old self.new 0 }
        ensures all { OnOk result (ArePutFrom priority self.old self.new (length self.old.levels)) }
    {
        let number = self.judged;
        for place in 0..self.levels.len() {
            let level = self.levels.at_mut(place);
            if level.priority <= priority {
                level.from.put(number)?;
            }
        }
        Ok(())
    }

    // the place of the level of a priority, which comes in last where there is none
    fn place_for(&mut self, alloc: Global, priority: u32) -> Result<usize, Memory>
        ensures known { IfOk result (λ place. place < length self.new.levels) }
        ensures at { IfOk result (λ place. (d : Level) → (slice_index_or self.new.levels place d).priority ≡ priority) }
        ensures levels { (app : App) (u : ℕ) (vs : List PartValue) → AreTaskLevels app u vs self.old → AreTaskLevels app u vs self.new }
        ensures judged { OnOk result (self.new.judged ≡ self.old.judged) }
    {
        let count = self.levels.len();
        for place in 0..count {
            if self.levels.at(place).priority == priority {
                return Ok(place);
            }
        }
        let numbers = NumberedSet::new(alloc, self.dead.domain());
        let from = self.numbers_from(alloc, priority)?;
        self.levels.push(Level {
            priority,
            numbers,
            from,
        })?;
        Ok(count)
    }

    // the numbers of the values from a priority on
    fn numbers_from(&self, alloc: Global, priority: u32) -> Result<NumberedSet, Memory>
        ensures { IfOk result (λ from. (app : App) (u : ℕ) (vs : List PartValue) → AreTaskLevels app u vs self.now → AreFrom app u vs self.now.judged priority from) }
    {
        let mut from = NumberedSet::new(alloc, self.dead.domain());
        let Some(place) = self.place_from(priority as u64) else {
            return Ok(from);
        };
        let above = &self.levels.at(place).from;
        let count = self.judged;
        let mut number = above.next(0, count);
        while number < count {
            from.put(number)?;
            number = above.next(number + 1, count);
        }
        Ok(from)
    }

    // the place of the least level from a limit on
    fn place_from(&self, limit: u64) -> Option<usize>
        ensures { IsLeastFrom self.now.levels limit (length self.now.levels) result }
    {
        let mut least = None;
        let mut bound = u64::MAX;
        for place in 0..self.levels.len() {
            let priority = self.levels.at(place).priority as u64;
            if limit <= priority && priority < bound {
                least = Some(place);
                bound = priority;
            }
        }
        least
    }

    /// The least limit under which the task is with some value of an entry; past all priorities where it has none.
    pub fn need(&self, task: TaskNo, entry: &NumberedEntry) -> u64
        requires { task.0 < length entry.now.sets }
        ensures least { (app : App) (vs : List PartValue) → AreTaskLevels app task.0 vs self.now → AreAllJudged self.now (numbers_at entry.now task.0) → IsLeastLimit app task.0 vs (numbers_at entry.now task.0) result }
        ensures none { (numbers_at entry.now task.0).bits ≡ 0 → result ≡ 2 ^ 64 - 1 }
    {
        let component = task.index();
        if entry.meets(component, &self.dead) {
            return 0;
        }
        let mut need = u64::MAX;
        for level in self.levels.as_slice() {
            if entry.meets(component, &level.numbers) {
                need = need.min(level.limit_above());
            }
        }
        need
    }

    /// Leaves out the numbers of the values with which the task is Live and not below a limit.
    pub fn keep_below(
        &self,
        task: TaskNo,
        limit: u64,
        entry: &mut NumberedEntry,
    ) -> Result<(), Memory>
        requires { task.0 < length entry.old.sets }
        ensures { OnOk result ((app : App) (pool : List Values) → AreTaskLevels app task.0 (values_at pool task.0) self.now → AreAllJudged self.now (numbers_at entry.old task.0) →
            IsNarrowed (λ v. is_below app task.0 limit (val_of v)) pool task.0 entry.old entry.new) }
    {
        let Some(place) = self.place_from(limit) else {
            return Ok(());
        };
        entry.leave_out(task.index(), &self.levels.at(place).from)
    }

    /// Leaves out the numbers of the values with which the task isn't Live.
    pub fn keep_live(&self, task: TaskNo, entry: &mut NumberedEntry) -> Result<(), Memory>
        requires { task.0 < length entry.old.sets }
        ensures { OnOk result ((app : App) (pool : List Values) → AreTaskLevels app task.0 (values_at pool task.0) self.now → AreAllJudged self.now (numbers_at entry.old task.0) →
            IsNarrowed (λ v. is_live_value (val_of v)) pool task.0 entry.old entry.new) }
    {
        entry.leave_out(task.index(), &self.dead)?;
        Ok(())
    }
}

impl Level {
    ghost use Rattle.std.specs.Prelude.{◌≡◌, ◌+◌, ◌^◌, ◌<◌};

    // the least limit that its priority is below
    fn limit_above(&self) -> u64
        ensures above { result ≡ self.now.priority + 1 }
        ensures few { self.now.priority < 2 ^ 32 }
    {
        self.priority as u64 + 1
    }
}
