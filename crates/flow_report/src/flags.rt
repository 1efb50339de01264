//! The tasks that are never activated, the alarms that are never armed, and the events that are never set.
ghost use Rattle.std.specs.Prelude.{◌≡◌, ◌<◌, ◌^◌};
ghost use Rattle.osek_values.specs.Numbers.{mask};

use crate::finding::Finding;
use crate::finding_list::push_if;
use crate::reached::Reached;
use abstract_state::{Component, PartValue, component_number};
use flow_model::Test;
use osek_values::{AlarmNo, EventNo, Mask, Memory, TaskNo};

impl<'a> Reached<'a> {
    ghost use Rattle.std.specs.{Prelude.{◌≡◌, ◌+◌, ◌<◌, ◌^◌, length, OnOk, IsTrue}, Bool.{Decides}};
    ghost use Rattle.osek_values.specs.{Numbers.{mask}, Bits.{has_bit}};
    ghost use Rattle.osek_standard.specs.Apps.{the_task};
    ghost use Rattle.flow_report.specs.declared.finding.Finding.TheVariants as finding;
    ghost use Rattle.flow_report.specs.{Findings.{Holds}, FindingOrder.{rank_at}, Progress.{AreListed}, Reached.{table_of}};
    ghost use Rattle.table_rows.specs.Rows.{AreRowsFrom};

    fn is_suspended(&self, task: TaskNo) -> bool
        requires rows { AreRowsFrom self.now.app.now self.now.pool.now self.now.rows.now }
        requires known { task.0 < length self.now.app.now.tasks }
        ensures { Decides result (Holds self.now.app.now (table_of self.now.pool.now self.now.rows.now) (finding.Suspended task)) }
    {
        let component = component_number(self.app, Component::Task(task)).index();
        !self.is_shown(component, &Test::NotSuspended)
    }

    fn is_unarmed(&self, alarm: AlarmNo) -> bool
        requires rows { AreRowsFrom self.now.app.now self.now.pool.now self.now.rows.now }
        requires known { alarm.0 < length self.now.app.now.alarms }
        ensures { Decides result (Holds self.now.app.now (table_of self.now.pool.now self.now.rows.now) (finding.Unarmed alarm)) }
    {
        let component = component_number(self.app, Component::Alarm(alarm)).index();
        let armed = Test::Is(PartValue::OfAlarm(true));
        !self.is_shown(component, &armed)
    }

    fn is_unset(&self, task: TaskNo, bit: EventNo) -> bool
        requires rows { AreRowsFrom self.now.app.now self.now.pool.now self.now.rows.now }
        requires task { task.0 < length self.now.app.now.tasks }
        requires bit { bit.0 < 64 }
        requires own { IsTrue (has_bit (the_task self.now.app.now task.0).own.0 bit.0) }
        ensures { Decides result (Holds self.now.app.now (table_of self.now.pool.now self.now.rows.now) (finding.Unset task (mask (2 ^ bit.0)))) }
    {
        let component = component_number(self.app, Component::Event { task, bit }).index();
        let set = Test::Is(PartValue::OfEvent(true));
        !self.is_shown(component, &set)
    }

    /// Adds the tasks that are never activated.
    pub fn push_suspended(&self, findings: &mut Vec<Finding>) -> Result<(), Memory>
        requires rows { AreRowsFrom self.now.app.now self.now.pool.now self.now.rows.now }
        requires listed { AreListed self.now.app.now (table_of self.now.pool.now self.now.rows.now) (rank_at 0 0 0) findings.old.items }
        ensures { OnOk result (AreListed self.now.app.now (table_of self.now.pool.now self.now.rows.now) (rank_at 1 0 0) findings.new.items) }
    {
        for task in 0..self.app.tasks.len() {
            let task = TaskNo(task as u8);
            let holds = self.is_suspended(task);
            push_if(holds, Finding::Suspended(task), findings)?;
        }
        Ok(())
    }

    /// Adds the alarms that are never armed.
    pub fn push_unarmed(&self, findings: &mut Vec<Finding>) -> Result<(), Memory>
        requires rows { AreRowsFrom self.now.app.now self.now.pool.now self.now.rows.now }
        requires listed { AreListed self.now.app.now (table_of self.now.pool.now self.now.rows.now) (rank_at 1 0 0) findings.old.items }
        ensures { OnOk result (AreListed self.now.app.now (table_of self.now.pool.now self.now.rows.now) (rank_at 2 0 0) findings.new.items) }
    {
        for alarm in 0..self.app.alarms.len() {
            let alarm = AlarmNo(alarm as u8);
            let holds = self.is_unarmed(alarm);
            push_if(holds, Finding::Unarmed(alarm), findings)?;
        }
        Ok(())
    }

    /// Adds the events that are never set.
    pub fn push_unset(&self, findings: &mut Vec<Finding>) -> Result<(), Memory>
        requires rows { AreRowsFrom self.now.app.now self.now.pool.now self.now.rows.now }
        requires listed { AreListed self.now.app.now (table_of self.now.pool.now self.now.rows.now) (rank_at 2 0 0) findings.old.items }
        ensures { OnOk result (AreListed self.now.app.now (table_of self.now.pool.now self.now.rows.now) (rank_at 3 0 0) findings.new.items) }
    {
        for task in 0..self.app.tasks.len() {
            self.push_unset_of(TaskNo(task as u8), findings)?;
        }
        Ok(())
    }

    // adds those of a task
    fn push_unset_of(&self, task: TaskNo, findings: &mut Vec<Finding>) -> Result<(), Memory>
        requires rows { AreRowsFrom self.now.app.now self.now.pool.now self.now.rows.now }
        requires known { task.0 < length self.now.app.now.tasks }
        requires listed { AreListed self.now.app.now (table_of self.now.pool.now self.now.rows.now) (rank_at 2 task.0 0) findings.old.items }
        ensures { OnOk result (AreListed self.now.app.now (table_of self.now.pool.now self.now.rows.now) (rank_at 2 (task.0 + 1) 0) findings.new.items) }
    {
        for bit in 0..64 {
            self.push_unset_at(task, EventNo(bit), findings)?;
        }
        Ok(())
    }

    // adds one of these, if it is the task's own
    fn push_unset_at(
        &self,
        task: TaskNo,
        bit: EventNo,
        findings: &mut Vec<Finding>,
    ) -> Result<(), Memory>
        requires rows { AreRowsFrom self.now.app.now self.now.pool.now self.now.rows.now }
        requires known { task.0 < length self.now.app.now.tasks }
        requires bit { bit.0 < 64 }
        requires listed { AreListed self.now.app.now (table_of self.now.pool.now self.now.rows.now) (rank_at 2 task.0 (2 ^ bit.0)) findings.old.items }
        ensures { OnOk result (AreListed self.now.app.now (table_of self.now.pool.now self.now.rows.now) (rank_at 2 task.0 (2 ^ (bit.0 + 1))) findings.new.items) }
    {
        if !self.app.task(task).own.has(bit.0) {
            return Ok(());
        }
        let holds = self.is_unset(task, bit);
        push_if(holds, Finding::Unset(task, only(bit)), findings)?;
        Ok(())
    }
}

// the mask of one event
fn only(bit: EventNo) -> Mask
    requires { bit.0 < 64 }
    ensures { result ≡ mask (2 ^ bit.0) }
{
    Mask(1 << bit.0)
}
