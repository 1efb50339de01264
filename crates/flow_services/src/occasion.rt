//! What all cases of a call have in common, and the parts of which they are made.
ghost use Rattle.std.specs.Prelude.{◌≡◌, [], ◌∷◌, ◌++◌, IfOk, OnOk, OnErr};
ghost use Rattle.flow_model.specs.{Cases.{condition as condition_on}};
ghost use Rattle.flow_services.specs.Occasions.{expired_conditions, expired_changes};

use abstract_state::{ComponentNo, PartValue};
use flow_model::{Asked, Change, Condition, EffectCase, Leaving, Runner, Test, Update};
use osek_values::{BlockNo, Memory, Seq, Status, TaskNo};
use std::alloc::Global;

/// An alarm that expired, and whether it is armed anew.
#[derive(Clone, Copy)]
pub struct Expired {
    pub alarm: ComponentNo,
    pub again: bool,
}

/// What a service puts into the line of the tasks that are to run. Where it puts something there, that may lead to a dispatch.
#[derive(Clone, Copy)]
pub enum Queued {
    Nothing,
    /// A Live task has a place more.
    Further,
    /// This task becomes Live, and goes last.
    Last(TaskNo),
}

/// Where a service is called, or an alarm does its action.
#[derive(Clone, Copy)]
pub struct Occasion {
    pub runner: Runner,
    /// Where the runner goes on.
    pub next: BlockNo,
    /// What is asked where the service may lead to a dispatch.
    pub asked: Asked,
    /// The alarm whose action this is, if it is one.
    pub expired: Option<Expired>,
}

/// The one condition that a component's value passes a test.
pub fn only(alloc: Global, component: ComponentNo, test: Test) -> Result<Seq<Condition>, Memory>
    ensures { IfOk result (λ conditions. conditions ≡ condition_on component.0 test ∷ []) }
{
    let mut conditions = Seq::new(alloc);
    conditions.push(Condition { component, test })?;
    Ok(conditions)
}

/// The component of a task.
pub fn task_component(task: TaskNo) -> ComponentNo
    ensures { result.0 ≡ task.0 }
{
    ComponentNo(task.0 as u16)
}

fn add_expired_condition(
    expired: Option<Expired>,
    conditions: &mut Seq<Condition>,
) -> Result<(), Memory>
    ensures { OnOk result (conditions.new ≡ conditions.old ++ expired_conditions expired) }
{
    if let Some(alarm) = expired {
        conditions.push(Condition {
            component: alarm.alarm,
            test: Test::Is(PartValue::OfAlarm(true)),
        })?;
    }
    Ok(())
}

fn add_expired_change(expired: Option<Expired>, changes: &mut Seq<Change>) -> Result<(), Memory>
    ensures { OnOk result (changes.new ≡ changes.old ++ expired_changes expired) }
{
    if let Some(alarm) = expired {
        changes.push(Change {
            component: alarm.alarm,
            update: Update::Set(PartValue::OfAlarm(alarm.again)),
        })?;
    }
    Ok(())
}

impl Queued {
    ghost use Rattle.std.specs.Prelude.{◌≡◌};
    ghost use Rattle.flow_services.specs.Occasions.{last_of, puts_some};

    /// The task that is put last, if one is.
    fn last(self) -> Option<TaskNo>
        ensures { result ≡ last_of self }
    {
        match self {
            Queued::Nothing | Queued::Further => None,
            Queued::Last(task) => Some(task),
        }
    }

    /// Whether it puts something there.
    fn is_some(self) -> bool
        ensures { result ≡ puts_some self }
    {
        match self {
            Queued::Nothing => false,
            Queued::Further | Queued::Last(_) => true,
        }
    }
}

impl Occasion {
    ghost use Rattle.std.specs.Prelude.{◌≡◌, [], Some, IfOk};
    ghost use Rattle.osek_values.specs.declared.status.Status.TheVariants as statuses;
    ghost use Rattle.flow_services.specs.declared.occasion.Queued.TheVariants as queues;
    ghost use Rattle.flow_services.specs.Occasions.{refused_case, accepted_case, unnoted_case, begun, case_by, case_at};

    /// The changes that come before those of the service: these follow them in one list.
    pub fn begun(self, alloc: Global) -> Result<Seq<Change>, Memory>
        ensures { IfOk result (λ changes. changes ≡ begun self) }
    {
        let mut changes = self.runner.moving(alloc, self.next)?;
        add_expired_change(self.expired, &mut changes)?;
        Ok(changes)
    }

    /// A case of the service here, with all changes, and with what it puts into the line.
    pub fn case(
        self,
        mut conditions: Seq<Condition>,
        changes: Seq<Change>,
        status: Option<Status>,
        queued: Queued,
    ) -> Result<EffectCase, Memory>
        ensures { IfOk result (λ case. case ≡ case_by self conditions changes status queued) }
    {
        add_expired_condition(self.expired, &mut conditions)?;
        let asked = if queued.is_some() {
            self.asked
        } else {
            Asked::No
        };
        Ok(EffectCase {
            conditions,
            changes,
            leaving: Leaving::at(self.runner.at(self.next), asked, status).with_last(queued.last()),
        })
    }

    /// The case of a call that is refused, which changes nothing.
    pub fn refused(
        self,
        alloc: Global,
        conditions: Seq<Condition>,
        status: Status,
    ) -> Result<EffectCase, Memory>
        ensures { IfOk result (λ case. case ≡ case_at self (refused_case conditions status)) }
    {
        let changes = self.begun(alloc)?;
        self.case(conditions, changes, Some(status), Queued::Nothing)
    }

    /// The case of a call that is accepted, with all changes, and with what it puts into the line.
    pub fn accepted(
        self,
        conditions: Seq<Condition>,
        changes: Seq<Change>,
        queued: Queued,
    ) -> Result<EffectCase, Memory>
        ensures { IfOk result (λ case. case ≡ case_by self conditions changes (Some statuses.Ok) queued) }
    {
        self.case(conditions, changes, Some(Status::Ok), queued)
    }

    /// The case of a call that is accepted and changes nothing.
    pub fn answered(self, alloc: Global, conditions: Seq<Condition>) -> Result<EffectCase, Memory>
        ensures { IfOk result (λ case. case ≡ case_at self (accepted_case conditions [] queues.Nothing)) }
    {
        let changes = self.begun(alloc)?;
        self.accepted(conditions, changes, Queued::Nothing)
    }

    /// The same, as the action of an alarm that expired.
    pub fn expiring(self, alarm: ComponentNo, again: bool) -> Occasion
        ensures { result ≡ record self { expired = Some (record { alarm = alarm; again = again }) } }
    {
        Occasion {
            expired: Some(Expired { alarm, again }),
            ..self
        }
    }

    /// The case of an instruction that notes no status and changes nothing.
    pub fn unnoted(self, alloc: Global, conditions: Seq<Condition>) -> Result<EffectCase, Memory>
        ensures { IfOk result (λ case. case ≡ case_at self (unnoted_case conditions)) }
    {
        let changes = self.begun(alloc)?;
        self.case(conditions, changes, None, Queued::Nothing)
    }
}

/// The list of one case.
pub fn one(alloc: Global, case: EffectCase) -> Result<Seq<EffectCase>, Memory>
    ensures { IfOk result (λ cases. cases ≡ case ∷ []) }
{
    let mut cases = Seq::new(alloc);
    cases.push(case)?;
    Ok(cases)
}
